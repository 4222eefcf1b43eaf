// Steps 12 and 13 of a recipe on a colour: the flat form of a calculator program (clause 7.10.5) takes the tints, and its results replace the values.
#![tactic(auto)]

mod placed;
mod stepping;

pub use placed::step;
