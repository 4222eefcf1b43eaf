// Calculator programs (clause 7.10.5) on a page: whether the run of blocks after a record is filled as it must be,
// judging the text that lies there, and the words of its program.
#![tactic(auto)]

mod filling;
mod judging;
mod texts;
mod words;

pub use texts::{is_filled_run, judge_run, program_run, put_run, run_words, step_run};

// The most blocks that a text lies in.
pub const BLOCKS: u32 = 4;

// The bytes that stand in them.
pub const TEXT: usize = 2016;
