// What a byte begins, or is a part of.
ghost use Rattle.std.specs.Prelude.{◌≡◌};
ghost use Rattle.lexer.specs.Moves.{begun, joined};

use crate::strings::{in_escape, in_hash, in_hash_pair, in_hex, in_pair, in_text, octal_byte};
use crate::types::{Mode, Move, Token};
use lexical::{is_delimiter, is_line_end, is_white};

// A byte between tokens.
#[tactic(auto, unfolding(crate::specs::Moves::begun))]
fn begin(b: u8) -> Move
    ensures { result ≡ begun b }
{
    if is_white(b) {
        return Move::quiet(Mode::Gap);
    }
    match b {
        b'%' => Move::quiet(Mode::Comment),
        b'/' => Move::quiet(Mode::Name),
        b'(' => Move::quiet(Mode::Text(0)),
        b'<' => Move::quiet(Mode::Less),
        b'>' => Move::quiet(Mode::Greater),
        b'[' => Move::whole(Token::ArrayOpen),
        b']' => Move::whole(Token::ArrayClose),
        _ if is_delimiter(b) => Move::bad(),
        _ => Move::figure(b),
    }
}

// What a byte is a part of.
#[tactic(auto, unfolding(crate::specs::Moves::joined))]
pub fn join_mode(m: Mode, b: u8) -> Move
    ensures { result ≡ joined m b }
{
    match m {
        Mode::Gap => begin(b),
        Mode::Comment if is_line_end(b) => Move::quiet(Mode::Gap),
        Mode::Comment => Move::quiet(Mode::Comment),
        Mode::Regular => Move::figure(b),
        Mode::Name if b == b'#' => Move::quiet(Mode::Hash),
        Mode::Name => Move::emit(Mode::Name, b),
        Mode::Hash => in_hash(b),
        Mode::HashDigit(d) => in_hash_pair(d, b),
        Mode::Less => Move::whole(Token::DictOpen),
        Mode::Greater => Move::whole(Token::DictClose),
        Mode::Hex => in_hex(b),
        Mode::HexDigit(d) => in_pair(d, b),
        Mode::Text(d) => in_text(d, b),
        Mode::Return(d) => Move::quiet(Mode::Text(d)),
        Mode::Escape(d) => in_escape(d, b),
        Mode::Octal(d, v) => Move::quiet(Mode::Octals(d, octal_byte(v, b))),
        Mode::Octals(d, v) => Move::emit(Mode::Text(d), octal_byte(v, b)),
    }
}
