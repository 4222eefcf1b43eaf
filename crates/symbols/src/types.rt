// The tokens of a calculator text.

// An operator that its name says whole, by its word in the flat form.
#[derive(Clone, Copy, Debug, PartialEq, Eq)]
pub enum Operator {
    Add = 7,
    Sub = 8,
    Mul = 9,
    Eq = 10,
    Ne = 11,
    Gt = 12,
    Ge = 13,
    Lt = 14,
    Le = 15,
    And = 16,
    Or = 17,
    Neg = 18,
    Abs = 19,
    Not = 20,
    True = 21,
    False = 22,
    Pop = 23,
    Exch = 24,
    Dup = 25,
}

// A token; `Other`: none that is carried, or a number too fine or too large.
#[derive(Clone, Copy, Debug, PartialEq, Eq)]
pub enum Symbol {
    Open,
    Close,
    If,
    IfElse,
    Copy,
    Index,
    Roll,
    Number(i32),
    Operator(Operator),
    Other,
}

impl Operator {
    ghost use Rattle.std.specs.Prelude.{◌≡◌, pos};
    ghost use Rattle.stack.specs.Flat.{word_of};
    ghost use Rattle.symbols.specs.Symbols.{op_of};

    // Its word.
    pub fn word(self) -> i32
        ensures { result ≡ pos (word_of (op_of self)) }
    {
        self as i32
    }
}
