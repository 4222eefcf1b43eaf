// What the lexer's functions hand to one another.

use lexical::Number;

// Where the lexer stands. Text, Return, Escape, Octal and Octals have the nesting of parentheses, the last two the byte so far.
#[derive(Clone, Copy, Debug, PartialEq, Eq)]
pub enum Mode {
    Gap,
    Comment,
    Regular,
    Name,
    Hash,
    HashDigit(u8),
    Less,
    Greater,
    Hex,
    HexDigit(u8),
    Text(u32),
    Return(u32),
    Escape(u32),
    Octal(u32, u8),
    Octals(u32, u8),
}

// A token. One of regular characters is a number or a keyword.
#[derive(Clone, Copy, Debug, PartialEq, Eq)]
pub enum Token {
    NameToken,
    RegularToken,
    StringToken,
    ArrayOpen,
    ArrayClose,
    DictOpen,
    DictClose,
}

// What a move hands on: nothing, a byte of a name or string, a regular character, a whole token, or bad syntax.
#[derive(Clone, Copy, Debug, PartialEq, Eq)]
pub enum Event {
    Quiet,
    Byte(u8),
    Figure(u8),
    WellMade(Token),
    Bad,
}

// A move of the lexer: the next mode, and what it hands on.
#[derive(Clone, Copy, Debug, PartialEq, Eq)]
pub struct Move {
    pub mode: Mode,
    pub event: Event,
}

// What is met on the way: nothing, a token that is complete, bad syntax, or the first byte that is too many.
#[derive(Clone, Copy, Debug, PartialEq, Eq)]
pub enum Met {
    Nothing,
    Complete(Token),
    Wrong,
    Past,
}

// A place to read on from: the number so far, the size of the name or string that began last, the bytes read, and where the last token began.
#[derive(Clone, Copy, Debug, PartialEq, Eq)]
pub struct Lexer {
    pub mode: Mode,
    pub number: Number,
    pub size: u32,
    pub seen: u32,
    pub first: u32,
}

// A place, and what was met there.
#[derive(Clone, Copy, Debug, PartialEq, Eq)]
pub struct Lexed {
    pub lexer: Lexer,
    pub met: Met,
}

// The first thing met in a part, and where in the part to read on.
#[derive(Clone, Copy, Debug, PartialEq, Eq)]
pub struct Found {
    pub lexer: Lexer,
    pub met: Met,
    pub at: usize,
}

// A place, and where in the part to read on.
#[derive(Clone, Copy, Debug, PartialEq, Eq)]
pub struct Skipped {
    pub lexer: Lexer,
    pub at: usize,
}
