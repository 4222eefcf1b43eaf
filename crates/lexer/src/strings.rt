// Within strings and names (ISO 32000-1, 7.3.4 and 7.3.5).
ghost use Rattle.std.specs.Prelude.{◌≡◌};
ghost use Rattle.lexer.specs.Moves.{in_text, escape_of, escaped, octal_byte, in_hex, in_pair, in_hash, in_hash_pair};

use crate::moves::deeper;
use crate::types::{Mode, Move, Token};
use lexical::{hex_byte, hex_of, is_octal, is_white};

// A byte of a literal string, in d pairs of parentheses.
#[tactic(auto, unfolding(crate::specs::Moves::in_text))]
pub fn in_text(d: u32, b: u8) -> Move
    ensures { result ≡ in_text d b }
{
    match b {
        b'(' => Move::emit(Mode::Text(deeper(d)), b'('),
        b')' if d == 0 => Move::whole(Token::StringToken),
        b')' => Move::emit(Mode::Text(d - 1), b')'),
        b'\\' => Move::quiet(Mode::Escape(d)),
        b'\r' => Move::emit(Mode::Return(d), b'\n'),
        _ => Move::emit(Mode::Text(d), b),
    }
}

// What a byte means after a backslash, octal digits and ends of lines apart.
#[tactic(auto, unfolding(crate::specs::Moves::escape_of))]
fn escape_of(b: u8) -> u8
    ensures { result ≡ escape_of b }
{
    match b {
        b'n' => b'\n',
        b'r' => b'\r',
        b't' => b'\t',
        b'b' => 8,
        b'f' => 12,
        _ => b,
    }
}

// A byte after a backslash.
#[tactic(auto, unfolding(crate::specs::Moves::escaped))]
pub fn in_escape(d: u32, b: u8) -> Move
    ensures { result ≡ escaped d b }
{
    match b {
        _ if is_octal(b) => Move::quiet(Mode::Octal(d, b.saturating_sub(b'0'))),
        b'\n' => Move::quiet(Mode::Text(d)),
        b'\r' => Move::quiet(Mode::Return(d)),
        _ => Move::emit(Mode::Text(d), escape_of(b)),
    }
}

// An octal escape with one digit more.
pub fn octal_byte(v: u8, b: u8) -> u8
    ensures { result ≡ octal_byte v b }
{
    ((u32::from(v) * 8 + u32::from(b.saturating_sub(b'0'))) % 256) as u8
}

// A byte of a hexadecimal string, between two pairs of digits.
#[tactic(auto, unfolding(crate::specs::Moves::in_hex))]
pub fn in_hex(b: u8) -> Move
    ensures { result ≡ in_hex b }
{
    if is_white(b) {
        return Move::quiet(Mode::Hex);
    }
    if b == b'>' {
        return Move::whole(Token::StringToken);
    }
    match hex_of(b) {
        h if h < 16 => Move::quiet(Mode::HexDigit(h)),
        _ => Move::bad(),
    }
}

// And within a pair.
#[tactic(auto, unfolding(crate::specs::Moves::in_pair))]
pub fn in_pair(d: u8, b: u8) -> Move
    ensures { result ≡ in_pair d b }
{
    if is_white(b) {
        return Move::quiet(Mode::HexDigit(d));
    }
    match hex_of(b) {
        h if h < 16 => Move::emit(Mode::Hex, hex_byte(d, h)),
        _ => Move::bad(),
    }
}

// The first digit after # in a name.
#[tactic(auto, unfolding(crate::specs::Moves::in_hash))]
pub fn in_hash(b: u8) -> Move
    ensures { result ≡ in_hash b }
{
    match hex_of(b) {
        h if h < 16 => Move::quiet(Mode::HashDigit(h)),
        _ => Move::bad(),
    }
}

// And the second.
#[tactic(auto, unfolding(crate::specs::Moves::in_hash_pair))]
pub fn in_hash_pair(d: u8, b: u8) -> Move
    ensures { result ≡ in_hash_pair d b }
{
    let h = hex_of(b);
    if h < 16 && hex_byte(d, h) != 0 {
        Move::emit(Mode::Name, hex_byte(d, h))
    } else {
        Move::bad()
    }
}
