// The entries of an Indexed space's table, and how many words the recipe of a space has, its table among them.
#![tactic(auto)]

mod lengths;
mod palette;

pub use lengths::{head_size, words, words_in};
pub use palette::entry;
