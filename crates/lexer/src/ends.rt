// What a byte ends without being a part of it, and what the end of the text ends.
ghost use Rattle.std.specs.Prelude.{◌≡◌};
ghost use Rattle.lexer.specs.Moves.{ended, last_move};

use crate::types::{Mode, Move, Token};
use lexical::{hex_byte, is_octal, is_regular};

// What a byte ends.
#[tactic(auto, unfolding(crate::specs::Moves::ended))]
pub fn end_mode(m: Mode, b: u8) -> Move
    ensures { result ≡ ended m b }
{
    match m {
        Mode::Regular if !is_regular(b) => Move::whole(Token::RegularToken),
        Mode::Name if !is_regular(b) => Move::whole(Token::NameToken),
        Mode::Hash | Mode::HashDigit(_) if !is_regular(b) => Move::bad(),
        Mode::Less if b != b'<' => Move::quiet(Mode::Hex),
        Mode::Greater if b != b'>' => Move::bad(),
        Mode::HexDigit(d) if b == b'>' => Move::emit(Mode::Hex, hex_byte(d, 0)),
        Mode::Return(d) if b != b'\n' => Move::quiet(Mode::Text(d)),
        Mode::Octal(d, v) | Mode::Octals(d, v) if !is_octal(b) => Move::emit(Mode::Text(d), v),
        _ => Move::quiet(m),
    }
}

// What the end of the text ends.
pub fn last_mode(m: Mode) -> Move
    ensures { result ≡ last_move m }
{
    match m {
        Mode::Gap | Mode::Comment => Move::quiet(Mode::Gap),
        Mode::Regular => Move::whole(Token::RegularToken),
        Mode::Name => Move::whole(Token::NameToken),
        Mode::Hash | Mode::HashDigit(_) => Move::bad(),
        _ => Move::quiet(m),
    }
}
