// A colour of a space on a page: the page validated, its components limited to their ranges, an Indexed or a Separation made a colour of the space within, and
// the closing step.
#![tactic(auto)]

mod answers;
mod evaluating;

pub use evaluating::evaluate;
