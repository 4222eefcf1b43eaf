// The names of inks: which block of a page has a name, the lowest that has it, and the name as a part of that page; and what asking for an ink comes to.
#![tactic(auto)]

mod asked;
mod names;
mod search;

pub use asked::{AskError, Place, Side};
pub use names::{name_part, name_start};
pub use search::lowest;
