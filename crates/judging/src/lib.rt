// The end of a designer's text: what it answers, and judging the blocks that the text has made.
#![tactic(auto)]

mod judging;
mod types;

pub use judging::judge;
pub use types::TextRefusal;
