// The names that a designer's text knows, and the entries of a dictionary: which keys each family has, and what their values are.
#![tactic(auto)]

pub mod entries;
pub mod names;
mod rows;
