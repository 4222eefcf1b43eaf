// A layout of bytes as a list of fields, and the stores that write it: a byte, numbers of two and four bytes, a run of bytes, zeros.
#![tactic(auto)]

mod store;

pub use store::{put_num, put_one, put_run, put_two, put_zeros};
