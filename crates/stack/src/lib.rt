// Calculator programs (clause 7.10.5): the operand stack, the operators, and the flat form run on it.
#![tactic(auto)]

mod acting;
mod items;
mod numbers;
mod operators;
mod running;
mod values;

pub use items::{Item, small};
pub use numbers::size_of;
pub use operators::{Join, One, Op, Sum, Test, Two, truth};
pub use values::Stack;

// The most that a stack holds.
pub const MOST: usize = 100;
