// The recipe of a space on a page: the page validated, the recipe's length, which is tested first, and its words.
#![tactic(auto)]

mod pages;
mod writing;

pub use pages::write;
