// What a level of a space does to a colour's values: it limits its components to their ranges, or it makes a colour of the space within, by a row of its palette,
// its tint or its program.
#![tactic(auto)]

mod limits;
mod programs;
mod rows;
mod tints;

pub use limits::limit_all;
pub use programs::calculate;
pub use rows::pick_row;
pub use tints::tint;
