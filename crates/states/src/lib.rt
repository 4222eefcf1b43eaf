// What is kept between two calls of the reader of texts: a state, and the words that it is lent in.
#![tactic(auto)]

mod types;
mod words;

pub use types::{Packed, State};
pub use words::{WORDS, load, save};
