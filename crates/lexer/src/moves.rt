// The moves of the lexer.
ghost use Rattle.std.specs.Prelude.{◌≡◌};
ghost use Rattle.lexer.specs.Moves.{more, is_gap};

use crate::types::{Event, Mode, Move, Token};

impl Move {
    ghost use Rattle.lexer.specs.Moves.{quiet, emit, figure, whole, bad};

    // The mode changes, and no more.
    pub(crate) fn quiet(mode: Mode) -> Move
        ensures { result ≡ quiet mode }
    {
        let event = Event::Quiet;
        Move { mode, event }
    }

    // A byte of a name or string.
    pub(crate) fn emit(mode: Mode, b: u8) -> Move
        ensures { result ≡ emit mode b }
    {
        let event = Event::Byte(b);
        Move { mode, event }
    }

    // A regular character of a number or keyword.
    pub(crate) fn figure(b: u8) -> Move
        ensures { result ≡ figure b }
    {
        Move {
            mode: Mode::Regular,
            event: Event::Figure(b),
        }
    }

    // A token is complete.
    pub(crate) fn whole(token: Token) -> Move
        ensures { result ≡ whole token }
    {
        Move {
            mode: Mode::Gap,
            event: Event::WellMade(token),
        }
    }

    // Bad syntax.
    pub(crate) fn bad() -> Move
        ensures { result ≡ bad }
    {
        Move {
            mode: Mode::Gap,
            event: Event::Bad,
        }
    }
}

// One more, as far as 32 bits go.
#[tactic(auto, unfolding(crate::specs::Moves::more))]
pub fn deeper(x: u32) -> u32
    ensures { result ≡ more x }
{
    x.saturating_add(1)
}

// Whether the lexer stands between tokens.
pub fn is_gap(m: Mode) -> bool
    ensures { result ≡ is_gap m }
{
    matches!(m, Mode::Gap)
}
