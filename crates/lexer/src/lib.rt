// The lexer of a designer's text: bytes to tokens, as ISO 32000-1 has them in 7.2 and 7.3. It reads on from any place, so a text may come in parts.
#![tactic(auto)]

mod ends;
mod joins;
mod moves;
mod plain;
mod scans;
mod strings;
mod types;

pub use moves::{deeper, is_gap};
pub use scans::{LONGEST, find, finish};
pub use types::{Event, Found, Lexed, Lexer, Met, Mode, Move, Skipped, Token};
