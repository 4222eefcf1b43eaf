// What a block asks of the other blocks of its page: the space that it refers to, and the run of palette or program blocks after it (FORMAT.md, References,
// Palettes, Program runs).
#![tactic(auto)]

mod references;
mod runs;

pub use references::{count_within, permits};
pub use runs::{claimed_after, is_well_filled, program_fault};
