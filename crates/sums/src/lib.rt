// The two sums of a block's check, and whether a block has them (FORMAT.md, The check).
#![tactic(auto)]

mod check;

pub use check::{Sums, is_checked, sum_up};
