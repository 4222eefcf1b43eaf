// Validating a page: 1 to `BLOCKS` blocks of 512 bytes, each with a record (FORMAT.md, The page).
#![tactic(auto)]

mod first;
mod second;
mod validating;

pub use validating::validate;
