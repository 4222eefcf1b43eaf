// The parts of a recipe, stored in its words: what a level of a space adds, and the limits and the closing step that it ends with (FORMAT.md, Recipes).
#![tactic(auto)]

mod closings;
mod parts;
mod stores;

pub use closings::put_closing;
pub use parts::{put_ends, put_program, put_row, put_tint};
pub use stores::word_of;
