// The items of a flat form, each read off the front of a list of words.
ghost use Rattle.std.specs.Prelude.{◌≡◌, ◌≤◌, suc, length, MatchOption};
ghost use Rattle.fixed.specs.Values.{small_of};
ghost use Rattle.stack.specs.Flat.{size_of, code_of, counts_of, none, item_by, item_of, move_of};
ghost use Rattle.stack.specs.Meant.{op_meant, item_meant};

use crate::operators::{Join, One, Op, Sum, Test, Two};

// An operator; a jump of so many words where the top is not true, or always.
#[derive(Clone, Copy, Debug, Drop, Eq, PartialEq)]
pub enum Item {
    Op(Op),
    Unless(i32),
    Jump(i32),
}

// A word that is not negative, as an index; a negative one is 4294967295, which no word is.
pub fn small(w: i32) -> usize
    ensures is { result ≡ small_of w }
    ensures low { result ≤ 4294967295 }
{
    fixed::small(w) as usize
}

// How many words the item of a first word has.
fn size(w: usize) -> usize
    ensures { result ≡ size_of w }
{
    match w {
        4 => 3,
        ..7 => 2,
        _ => 1,
    }
}

// The first word, 0 where it begins no item.
// Kept: 0 as in the definition `code_of`; `item_by` makes an Option of it at once.
#[tactic(auto, unfolding(crate::specs::Flat::code_of))]
fn code(s: &[i32]) -> usize
    ensures is { result ≡ code_of s.now }
    ensures low { result ≤ 25 }
{
    let w = small(fixed::value_at(s, 0));
    if 25 < w || s.len() < size(w) { 0 } else { w }
}

// The item of a first word and the two words after it.
#[tactic(auto, unfolding(crate::specs::Flat::item_by, crate::specs::Flat::op_by, crate::specs::Flat::plain_by, crate::specs::Flat::two_by, crate::specs::Flat::one_by))]
fn item_by(w: usize, x: i32, y: i32) -> Option<Item>
    requires { w ≤ 25 }
    ensures { MatchOption result (item_by w x y ≡ none) (λ i. item_by w x y ≡ item_meant i) }
{
    match w {
        1 => Some(Item::Op(Op::Number(x))),
        2 => Some(Item::Op(Op::Copy(x))),
        3 => Some(Item::Op(Op::Index(x))),
        4 => Some(Item::Op(Op::Roll(x, y))),
        5 => Some(Item::Unless(x)),
        6 => Some(Item::Jump(x)),
        7 => Some(Item::Op(Op::Two(Two::Sum(Sum::Add)))),
        8 => Some(Item::Op(Op::Two(Two::Sum(Sum::Sub)))),
        9 => Some(Item::Op(Op::Two(Two::Sum(Sum::Mul)))),
        10 => Some(Item::Op(Op::Two(Two::Test(Test::Eq)))),
        11 => Some(Item::Op(Op::Two(Two::Test(Test::Ne)))),
        12 => Some(Item::Op(Op::Two(Two::Test(Test::Gt)))),
        13 => Some(Item::Op(Op::Two(Two::Test(Test::Ge)))),
        14 => Some(Item::Op(Op::Two(Two::Test(Test::Lt)))),
        15 => Some(Item::Op(Op::Two(Two::Test(Test::Le)))),
        16 => Some(Item::Op(Op::Two(Two::Join(Join::And)))),
        17 => Some(Item::Op(Op::Two(Two::Join(Join::Or)))),
        18 => Some(Item::Op(Op::One(One::Neg))),
        19 => Some(Item::Op(Op::One(One::Abs))),
        20 => Some(Item::Op(Op::One(One::Not))),
        21 => Some(Item::Op(Op::Constant(true))),
        22 => Some(Item::Op(Op::Constant(false))),
        23 => Some(Item::Op(Op::Pop)),
        24 => Some(Item::Op(Op::Exch)),
        25 => Some(Item::Op(Op::Dup)),
        _ => None,
    }
}

impl Op {
    // How many words follow its first.
    pub fn width(self) -> usize
        ensures is { result ≡ length (counts_of (op_meant self)) }
        ensures low { result ≤ 2 }
    {
        match self {
            Op::Roll(..) => 2,
            Op::Number(_) | Op::Copy(_) | Op::Index(_) => 1,
            _ => 0,
        }
    }
}

impl Item {
    // The item at the front of a list of words.
    pub fn read(words: &[i32]) -> Option<Item>
        ensures { MatchOption result (item_of words.now ≡ none) (λ i. item_of words.now ≡ item_meant i) }
    {
        let w = code(words);
        let x = fixed::value_at(words, 1);
        let y = fixed::value_at(words, 2);
        item_by(w, x, y)
    }

    // How many words on the next item stands, where the top is true or not.
    pub fn moves(self, top: bool) -> usize
        ensures { result ≡ move_of (item_meant self) top }
    {
        match self {
            Item::Op(op) => 1 + op.width(),
            Item::Unless(n) if !top => small(n) + 2,
            Item::Unless(_) => 2,
            Item::Jump(n) => small(n) + 2,
        }
    }
}
