// Calculator text (clause 7.10.5): its program, and the words of the program's flat form.
#![tactic(auto)]

mod braces;
mod compiling;
mod counts;
mod state;
mod tokens;
mod words;

pub use compiling::{compile, text_end};
pub use words::Words;

// Room for the words of any text: a token gives at most two.
pub const ROOM: usize = 2 * fixed::TOKENS;
