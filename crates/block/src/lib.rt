// A record as a block of 512 bytes: writing it, reading it, and the two round trips.
#![tactic(auto)]

mod reading;
mod trips;
mod writing;

pub use reading::read;
pub use trips::{read_and_written, written_and_read};
pub use writing::{put_record, write};
