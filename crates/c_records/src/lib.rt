// How a record is laid out for C: 20 numbers and 504 bytes, read both ways. Which 20 numbers make a record is decided here.
#![tactic(auto)]

mod numbers;
mod records;

pub use numbers::numbers_of;
pub use records::{is_record_like, record_of};
