// Text put into bytes that are lent: words, numbers in decimal, and the line of a designer's text that is refused.
#![tactic(auto)]

mod puts;
mod texts;

pub use puts::{put_column, put_number, put_text};
pub use texts::refused_at;
