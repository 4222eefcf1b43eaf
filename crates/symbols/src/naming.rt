// The names that are carried.
// Kept: chains of tests. A `match` of byte strings leaves 90 goals for the words that are none; a table walked by a loop reads texts a fifth slower.
ghost use Rattle.std.specs.Prelude.{◌≡◌, pos};
ghost use Rattle.symbols.specs.Symbols.{token_of};
ghost use Rattle.symbols.specs.Tokens.{token_by, stack_named, truth_named, test_named, sum_named, named};

use crate::types::{Operator, Symbol};
use lexical::is_word;

// pop, exch or dup; any other name is not carried.
#[tactic(auto, unfolding(crate::specs::Tokens::stack_named, crate::specs::Tokens::token_by, stack::specs::Flat::plain_by, stack::specs::Flat::two_by, stack::specs::Flat::one_by))]
fn stack_named(word: &[u8]) -> Symbol
    ensures { token_of result ≡ token_by (stack_named word.now) (pos 0) }
{
    if is_word(word, b"pop") {
        Symbol::Operator(Operator::Pop)
    } else if is_word(word, b"exch") {
        Symbol::Operator(Operator::Exch)
    } else if is_word(word, b"dup") {
        Symbol::Operator(Operator::Dup)
    } else {
        Symbol::Other
    }
}

// and, or, not, true, false, or one of the above.
#[tactic(auto, unfolding(crate::specs::Tokens::truth_named, crate::specs::Tokens::token_by, stack::specs::Flat::plain_by, stack::specs::Flat::two_by, stack::specs::Flat::one_by))]
fn truth_named(word: &[u8]) -> Symbol
    ensures { token_of result ≡ token_by (truth_named word.now) (pos 0) }
{
    if is_word(word, b"and") {
        Symbol::Operator(Operator::And)
    } else if is_word(word, b"or") {
        Symbol::Operator(Operator::Or)
    } else if is_word(word, b"not") {
        Symbol::Operator(Operator::Not)
    } else if is_word(word, b"true") {
        Symbol::Operator(Operator::True)
    } else if is_word(word, b"false") {
        Symbol::Operator(Operator::False)
    } else {
        stack_named(word)
    }
}

// eq, ne, gt, ge, lt, le, or one of the above.
#[tactic(auto, unfolding(crate::specs::Tokens::test_named, crate::specs::Tokens::token_by, stack::specs::Flat::plain_by, stack::specs::Flat::two_by, stack::specs::Flat::one_by))]
fn test_named(word: &[u8]) -> Symbol
    ensures { token_of result ≡ token_by (test_named word.now) (pos 0) }
{
    if is_word(word, b"eq") {
        Symbol::Operator(Operator::Eq)
    } else if is_word(word, b"ne") {
        Symbol::Operator(Operator::Ne)
    } else if is_word(word, b"gt") {
        Symbol::Operator(Operator::Gt)
    } else if is_word(word, b"ge") {
        Symbol::Operator(Operator::Ge)
    } else if is_word(word, b"lt") {
        Symbol::Operator(Operator::Lt)
    } else if is_word(word, b"le") {
        Symbol::Operator(Operator::Le)
    } else {
        truth_named(word)
    }
}

// add, sub, mul, neg, abs, or one of the above.
#[tactic(auto, unfolding(crate::specs::Tokens::sum_named, crate::specs::Tokens::token_by, stack::specs::Flat::plain_by, stack::specs::Flat::two_by, stack::specs::Flat::one_by))]
fn sum_named(word: &[u8]) -> Symbol
    ensures { token_of result ≡ token_by (sum_named word.now) (pos 0) }
{
    if is_word(word, b"add") {
        Symbol::Operator(Operator::Add)
    } else if is_word(word, b"sub") {
        Symbol::Operator(Operator::Sub)
    } else if is_word(word, b"mul") {
        Symbol::Operator(Operator::Mul)
    } else if is_word(word, b"neg") {
        Symbol::Operator(Operator::Neg)
    } else if is_word(word, b"abs") {
        Symbol::Operator(Operator::Abs)
    } else {
        test_named(word)
    }
}

// The token of any name.
#[tactic(auto, unfolding(crate::specs::Tokens::named, crate::specs::Tokens::token_by, stack::specs::Flat::plain_by, stack::specs::Flat::two_by, stack::specs::Flat::one_by))]
pub fn named(word: &[u8]) -> Symbol
    ensures { token_of result ≡ token_by (named word.now) (pos 0) }
{
    if is_word(word, b"copy") {
        Symbol::Copy
    } else if is_word(word, b"index") {
        Symbol::Index
    } else if is_word(word, b"roll") {
        Symbol::Roll
    } else if is_word(word, b"if") {
        Symbol::If
    } else if is_word(word, b"ifelse") {
        Symbol::IfElse
    } else {
        sum_named(word)
    }
}
