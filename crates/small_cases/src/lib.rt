// Cases of what is smaller than a page, for the program `cases`: numbers, steps, and one block by itself.
#![tactic(auto)]

mod blocks;
mod numbers;
mod steps;

pub use blocks::{block_case, is_kept};
pub use numbers::number_case;
pub use steps::step_case;
