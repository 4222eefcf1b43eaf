// Numbers, counts and operators, as words.
ghost use Rattle.std.specs.Prelude.{◌≡◌, List, [], ◌∷◌, ◌++◌, ◌≤◌, ◌<◌, ◌+◌, ◌*◌, ℤ, pos, length, Option};
ghost use Rattle.stack.specs.Flat.{words_of, word_of};
ghost use Rattle.stack.specs.Programs.{Op};
ghost use Rattle.symbols.specs.Symbols.{op_of};
ghost use Rattle.program.specs.Kept.{held_by, count_of, count_by, Room};
ghost use Rattle.program.specs.Parse.{count_z, spoiled, counting};
ghost use Rattle.program.specs.Words.{Outer, mark0, going, flush_w, held_w, counted_w, rolled_w};

use crate::state::Held;
use crate::words::Words;
use symbols::Operator;

// One, in millionths.
const MILLION: i32 = 1_000_000;

// The whole number that z millionths are, if they are one.
#[tactic(auto, unfolding(crate::specs::Parse::count_z))]
fn whole_of(z: i32) -> Option<i32>
    ensures { count_by result ≡ count_z z }
{
    if z % MILLION == 0 {
        Some(z / MILLION)
    } else {
        None
    }
}

// What judging refuses wherever it stands.
fn put_spoiled(words: &mut Words)
    requires { length words.old + 1 < 800 }
    ensures is { words.new ≡ words.old ++ words_of spoiled }
    ensures long { length words.new ≡ length words.old + 2 }
{
    words.put_two(2, -1);
}

// copy or index, by its word w, with its count.
// Kept: w is the word of copy or index in the form, 2 or 3, and is stored as it is.
fn put_count(words: &mut Words, w: i32, z: i32)
    requires { length words.old + 1 < 800 }
    ensures is { (f : ℤ → Op) → ((j : ℤ) → words_of (f j) ≡ w ∷ (j ∷ [])) → words.new ≡ words.old ++ words_of (counting f (count_z z)) }
    ensures long { length words.new ≡ length words.old + 2 }
{
    match whole_of(z) {
        Some(j) => words.put_two(w, j),
        None => put_spoiled(words),
    }
}

// The numbers held were no counts.
pub fn flush(words: &mut Words, held: Held)
    requires { length words.old + 2 * count_of held ≤ 800 }
    ensures is { words.new ≡ flush_w words.old (held_by held) }
    ensures long { length words.new ≡ length words.old + 2 * count_of held }
{
    match held {
        Held::Nothing => {}
        Held::One(x) => words.put_two(1, x),
        Held::Two(x, y) => {
            words.put_two(1, x);
            words.put_two(1, y);
        }
    }
}

// copy or index: the last number held is the count.
pub fn counted(words: &mut Words, held: Held, w: i32)
    requires { Room words.old (count_of held) }
    ensures is { (f : ℤ → Op) → ((j : ℤ) → words_of (f j) ≡ w ∷ (j ∷ [])) → words.new ≡ counted_w count_z f words.old (held_by held) }
    ensures long { length words.new ≤ length words.old + 2 * count_of held + 2 }
{
    match held {
        Held::Nothing => put_spoiled(words),
        Held::One(x) => put_count(words, w, x),
        Held::Two(x, y) => {
            words.put_two(1, x);
            put_count(words, w, y);
        }
    }
}

// roll: the last two are its counts.
pub fn rolled(words: &mut Words, held: Held)
    requires { Room words.old (count_of held) }
    ensures is { words.new ≡ rolled_w count_z words.old (held_by held) }
    ensures long { length words.new ≤ length words.old + 2 * count_of held + 2 }
{
    if let Held::Two(x, y) = held {
        if let (Some(i), Some(j)) = (whole_of(x), whole_of(y)) {
            words.put(4);
            words.put_two(i, j);
            return;
        }
    }
    put_spoiled(words);
}

// An operator of one word.
pub fn operator(words: &mut Words, held: Held, o: Operator)
    requires { Room words.old (count_of held) }
    ensures is { words.new ≡ flush_w words.old (held_by held) ++ words_of (op_of o) }
    ensures long { length words.new ≤ length words.old + 2 * count_of held + 2 }
{
    flush(words, held);
    words.put(o.word());
}

// A number: the last two are held.
pub fn number(words: &mut Words, held: Held, z: i32) -> Held
    requires { Room words.old (count_of held) }
    ensures is { (os : List Outer) → going words.new mark0 os (held_by result) ≡ held_w words.old (held_by held) z os }
    ensures grown { length words.new + 2 * count_of result ≤ length words.old + 2 * count_of held + 2 }
{
    match held {
        Held::Nothing => Held::One(z),
        Held::One(x) => Held::Two(x, z),
        Held::Two(x, y) => {
            words.put_two(1, x);
            Held::Two(y, z)
        }
    }
}
