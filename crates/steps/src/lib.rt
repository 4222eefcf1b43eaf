// The steps of a recipe: each read off the front of the recipe's words.
#![tactic(auto)]

mod parse;
mod words;

use cie::Closing;
pub use parse::{rgb_words, step_of};
pub use words::is_count;

// A step of a recipe, with its numbers; entries, C0s, C1s and a program's words are read off its words.
#[derive(Clone, Copy, Drop)]
pub enum Step {
    // Limit value k to lo..hi.
    Limit(u32, i32, i32),
    // Pick a row of m entries, of rows 0..h.
    Row(u32, u32),
    // The tint to the exponent e, and m components of the alternate space.
    Tint(u32, u32),
    // The program that takes t values and leaves m numbers, whose words stand from `at` on, n of them.
    Program(u32, u32, u32, u32),
    // The closing step.
    Close(Closing),
}
