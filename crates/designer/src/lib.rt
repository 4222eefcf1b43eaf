// The reader of a designer's text, over memory that the caller lends: `begin`, the text in parts of any length, `end`.
#![tactic(auto)]

mod ending;
mod lent;
mod reading;

pub use lent::{
    BLOCK_BYTES, BLOCKS, NAME_BYTES, SPACES, VALUES, WORD_BYTES, WORDS, begin, end, part,
};
