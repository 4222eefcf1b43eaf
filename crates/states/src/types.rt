// What is kept between two calls, as far as it is passed by value.
ghost use Rattle.std.specs.Prelude.{◌≡◌};

use lexer::{Lexer, Mode};
use reader::Head;

// Where the reading stands; the number that the text is refused with and its byte, where that number is not 0.
// Kept: the refusal is a number, 0 for none, since `load` takes any words for a state, whatever number and byte they hold, and `save` stores each state so that
// `state_in` gives it back.
#[derive(Clone, Copy, Debug, PartialEq, Eq)]
pub struct State {
    pub lexer: Lexer,
    pub head: Head,
    pub refusal: u32,
    pub place: u32,
}

// A mode of the lexer in three numbers: which it is, the nesting of parentheses, and a digit or a byte so far.
#[derive(Clone, Copy, Debug, PartialEq, Eq)]
pub struct Packed {
    pub tag: u32,
    pub depth: u32,
    pub small: u8,
}

impl Packed {
    ghost use Rattle.states.specs.Words.{pack};

    pub(crate) fn new(tag: u32, depth: u32, small: u8) -> Packed
        ensures { result ≡ pack tag depth small }
    {
        Packed { tag, depth, small }
    }
}

impl From<Mode> for Packed {
    ghost use Rattle.states.specs.Words.{packed};

    ghost from_gives = { λ m p. p ≡ packed m };

    fn from(m: Mode) -> Packed {
        match m {
            Mode::Gap => Packed::new(0, 0, 0),
            Mode::Comment => Packed::new(1, 0, 0),
            Mode::Regular => Packed::new(2, 0, 0),
            Mode::Name => Packed::new(3, 0, 0),
            Mode::Hash => Packed::new(4, 0, 0),
            Mode::HashDigit(small) => Packed::new(5, 0, small),
            Mode::Less => Packed::new(6, 0, 0),
            Mode::Greater => Packed::new(7, 0, 0),
            Mode::Hex => Packed::new(8, 0, 0),
            Mode::HexDigit(small) => Packed::new(9, 0, small),
            Mode::Text(depth) => Packed::new(10, depth, 0),
            Mode::Return(depth) => Packed::new(11, depth, 0),
            Mode::Escape(depth) => Packed::new(12, depth, 0),
            Mode::Octal(depth, small) => Packed::new(13, depth, small),
            Mode::Octals(depth, small) => Packed::new(14, depth, small),
        }
    }
}

#[tactic(auto, unfolding(crate::specs::Words::unpacked))]
impl From<Packed> for Mode {
    ghost use Rattle.states.specs.Words.{unpacked};

    ghost from_gives = { λ p m. m ≡ unpacked p };

    fn from(p: Packed) -> Mode {
        match p.tag {
            1 => Mode::Comment,
            2 => Mode::Regular,
            3 => Mode::Name,
            4 => Mode::Hash,
            5 => Mode::HashDigit(p.small),
            6 => Mode::Less,
            7 => Mode::Greater,
            8 => Mode::Hex,
            9 => Mode::HexDigit(p.small),
            10 => Mode::Text(p.depth),
            11 => Mode::Return(p.depth),
            12 => Mode::Escape(p.depth),
            13 => Mode::Octal(p.depth, p.small),
            14 => Mode::Octals(p.depth, p.small),
            _ => Mode::Gap,
        }
    }
}
