// The tokens of a calculator text (clause 7.10.5): numbers, braces and the names of operators.
#![tactic(auto)]

mod lexing;
mod naming;
mod types;

pub use lexing::next;
pub use types::{Operator, Symbol};
