// The reader of a designer's text: tokens to records.
#![tactic(auto)]

pub mod dictionary;
pub mod frames;
pub mod heads;
pub mod making;
pub mod opening;
mod types;

pub use types::{Entry, Head, Inner, Sort, Want};
