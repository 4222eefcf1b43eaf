// What a number on a page is: the kind of its space, its components and their ranges, the space within, and the numbers of its record. A level of a space is
// read once, and the rest is asked of that. Nothing here asks that the page was validated: a byte past the page is 0, and a number that is no space's has no
// components.
#![tactic(auto)]

mod nesting;
mod numbers;
mod ranges;

pub use nesting::{Level, level_at, plain_at, tinted_at};
pub use numbers::kind;
pub use ranges::{Bounds, bounds_of, components, count, limit_count, plain_bounds, plain_count};
