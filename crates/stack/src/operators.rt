// The operators of a program, and what each makes of its operands, or of their kinds.
ghost use Rattle.std.specs.Prelude.{◌≡◌};
ghost use Rattle.stack.specs.Stack.{truth};
ghost use Rattle.stack.specs.Operators.{sum_of, test_of, join_of, two_of, one_of, takes, gives, one_kind, number_in, truth_in, two_in, one_in};
ghost use Rattle.stack.specs.Meant.{sum_meant, test_meant, join_meant, two_meant, one_meant};

use crate::numbers::{absolute, add, mul, negative, sub};

// Of two numbers, a number.
#[derive(Clone, Copy, Debug, Drop, Eq, PartialEq)]
pub enum Sum {
    Add,
    Sub,
    Mul,
}

// Of two numbers, a truth value.
#[derive(Clone, Copy, Debug, Drop, Eq, PartialEq)]
pub enum Test {
    Eq,
    Ne,
    Gt,
    Ge,
    Lt,
    Le,
}

// Of two truth values, a truth value.
#[derive(Clone, Copy, Debug, Drop, Eq, PartialEq)]
pub enum Join {
    And,
    Or,
}

// An operator of two operands.
#[derive(Clone, Copy, Debug, Drop, Eq, PartialEq)]
pub enum Two {
    Sum(Sum),
    Test(Test),
    Join(Join),
}

// An operator of one operand.
#[derive(Clone, Copy, Debug, Drop, Eq, PartialEq)]
pub enum One {
    Neg,
    Abs,
    Not,
}

// An operator, a number, true or false; copy, index and roll with their counts.
#[derive(Clone, Copy, Debug, Drop, Eq, PartialEq)]
pub enum Op {
    Number(i32),
    Copy(i32),
    Index(i32),
    Roll(i32, i32),
    Two(Two),
    One(One),
    Constant(bool),
    Pop,
    Exch,
    Dup,
}

// A truth value as it stands on the stack.
pub fn truth(b: bool) -> i32
    ensures { result ≡ truth b }
{
    if b { 1 } else { 0 }
}

impl Sum {
    fn of(self, x: i32, y: i32) -> i32
        ensures { result ≡ sum_of (sum_meant self) x y }
    {
        match self {
            Sum::Add => add(x, y),
            Sum::Sub => sub(x, y),
            Sum::Mul => mul(x, y),
        }
    }
}

impl Test {
    fn of(self, x: i32, y: i32) -> bool
        ensures { result ≡ test_of (test_meant self) x y }
    {
        match self {
            Test::Eq => x == y,
            Test::Ne => x != y,
            Test::Gt => x > y,
            Test::Ge => x >= y,
            Test::Lt => x < y,
            Test::Le => x <= y,
        }
    }
}

impl Join {
    fn of(self, x: i32, y: i32) -> bool
        ensures { result ≡ join_of (join_meant self) x y }
    {
        match self {
            Join::And => x > 0 && y > 0,
            Join::Or => x > 0 || y > 0,
        }
    }
}

impl Two {
    // The kind of what it gives.
    fn gives(self) -> i32
        ensures { result ≡ gives (two_meant self) }
    {
        match self {
            Two::Sum(_) => 0,
            Two::Test(_) | Two::Join(_) => 1,
        }
    }

    // The kind that it takes.
    pub fn takes(self) -> i32
        ensures { result ≡ takes (two_meant self) }
    {
        match self {
            Two::Sum(_) | Two::Test(_) => 0,
            Two::Join(_) => 1,
        }
    }

    #[tactic(auto, unfolding(crate::specs::Operators::two_of))]
    fn value_of(self, x: i32, y: i32) -> i32
        ensures { result ≡ two_of (two_meant self) x y }
    {
        match self {
            Two::Sum(sum) => sum.of(x, y),
            Two::Test(test) => truth(test.of(x, y)),
            Two::Join(join) => truth(join.of(x, y)),
        }
    }

    // What it makes of two values, or of two kinds.
    pub fn of(self, x: i32, y: i32, kinds: bool) -> i32
        ensures { result ≡ two_in kinds (two_meant self) x y }
    {
        if kinds {
            self.gives()
        } else {
            self.value_of(x, y)
        }
    }
}

impl One {
    // The kind that it takes and gives.
    pub fn kind(self) -> i32
        ensures { result ≡ one_kind (one_meant self) }
    {
        match self {
            One::Neg | One::Abs => 0,
            One::Not => 1,
        }
    }

    #[tactic(auto, unfolding(crate::specs::Operators::one_of))]
    fn value_of(self, x: i32) -> i32
        ensures { result ≡ one_of (one_meant self) x }
    {
        match self {
            One::Neg => negative(x),
            One::Abs => absolute(x),
            One::Not => truth(x <= 0),
        }
    }

    // What it makes of one value, or of its kind.
    pub fn of(self, x: i32, kinds: bool) -> i32
        ensures { result ≡ one_in kinds (one_meant self) x }
    {
        if kinds { self.kind() } else { self.value_of(x) }
    }
}

// true or false, or its kind.
pub fn constant_of(b: bool, kinds: bool) -> i32
    ensures { result ≡ truth_in kinds b }
{
    if kinds { 1 } else { truth(b) }
}

// A number, or its kind.
pub fn number_of(x: i32, kinds: bool) -> i32
    ensures { result ≡ number_in kinds x }
{
    if kinds { 0 } else { x }
}
