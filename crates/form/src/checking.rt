// Checking a flat form, one word after the other.
ghost use Rattle.std.specs.Prelude.{◌≡◌, ◌≤◌, ◌<◌, ◌+◌, ◌*◌, drop, length, pos, replicate, OnSome};
ghost use Rattle.fixed.specs.Values.{places, widest};
ghost use Rattle.stack.specs.Stack.{most};
ghost use Rattle.form.specs.Table.{head_at, kinds_at, place_at, places_from, Low, passed, verdict};
ghost use Rattle.form.specs.Paths.{met, at, checks, formed};
ghost use Rattle.form.specs.Steps.{most_words, well_formed};

use crate::paths::{leave, width};
use crate::table::{arrive, head, load, same};
use crate::{FLAT_TABLE, TABLE, WORDS};
use fixed::{FLAT, VALUES, WIDEST};
use stack::{Item, Stack};

// A path came to place p with h kinds: they are put on the stack, unless it has them as those of the place `held`.
fn bring(t: &[u64], p: usize, h: usize, held: usize, stack: &mut Stack)
    requires { (h ≤ most) × (2 * p + 2 ≤ length t.now) × (head_at t.now p ≡ h + 1) × (place_at t.now held ≡ met stack.old) }
    ensures { stack.new ≡ kinds_at t.now p h }
{
    if held != p {
        load(t, p, h, stack);
    }
}

// One word of the loop, of which m are the rest of an item: how many words of its item follow, none where it is wrong. The stack has the kinds of the place
// `held`: after an item that is no jump that is the place past it, so that they need not be read from the table.
fn pass(
    words: &[i32],
    t: &mut [u64],
    stack: &mut Stack,
    held: &mut usize,
    p: usize,
    m: usize,
) -> Option<usize>
    requires { (p < length words.now) × (2 * (length words.now + 1) ≤ length t.old) × Low t.old × (place_at t.old held.old ≡ met stack.old) }
    ensures is { passed result words.now p (places_from t.new 0 (length words.now + 1)) ≡ checks (drop p words.now) m (at (drop p (places_from t.old 0 (length words.now + 1)))) }
    ensures low { Low t.new }
    ensures stands { OnSome result (place_at t.new held.new ≡ met stack.new) }
{
    let head = head(t, p);
    if m > 0 {
        return match head {
            None => Some(m - 1),
            Some(_) => None,
        };
    }
    bring(t, p, head?, *held, stack);
    let item = Item::read(&words[p..])?;
    *held = leave(item, t, words.len() + 1, p, stack)?;
    Some(width(item))
}

// The height at the end, none where the words are wrong.
fn check(words: &[i32], t: &mut [u64], stack: &mut Stack) -> Option<usize>
    requires { (2 * (length words.now + 1) ≤ length t.old) × Low t.old × (place_at t.old 0 ≡ met stack.old) }
    ensures is { verdict result t.new (length words.now) ≡ checks words.now 0 (at (places_from t.old 0 (length words.now + 1))) }
{
    let mut m: usize = 0;
    let mut held: usize = 0;
    for p in 0..words.len() {
        m = pass(words, t, stack, &mut held, p, m)?;
    }
    if m > 0 { None } else { head(t, words.len()) }
}

// The kinds of so many numbers, and nothing else.
fn numbers(count: usize, stack: &mut Stack)
    requires { count ≤ most }
    ensures { stack.new ≡ replicate count (pos 0) }
{
    stack.clear();
    for i in 0..count {
        stack.push(0);
    }
}

// Are the words the flat form of a program that takes `taken` numbers and leaves `count` numbers? The table is lent, all zeros.
fn formed_in(words: &[i32], taken: usize, count: usize, t: &mut [u64]) -> bool
    requires { (2 * (length words.now + 1) ≤ length t.old) × (taken ≤ places) × (count ≤ widest) × (t.old ≡ replicate (length t.old) 0) }
    ensures { result ≡ formed words.now taken count }
{
    let mut stack = Stack::new();
    numbers(taken, &mut stack);
    arrive(t, words.len() + 1, 0, &stack);
    if check(words, t, &mut stack) != Some(count) {
        return false;
    }
    numbers(count, &mut stack);
    same(t, words.len(), &stack)
}

// The same, with a table of its own, which is long enough. By its hint the function stays one of its own when it is compiled: the table takes memory only where
// it is called.
#[inline(never)]
fn formed<const ROWS: usize>(words: &[i32], taken: usize, count: usize) -> bool
    requires { (2 * (length words.now + 1) ≤ ROWS) × (ROWS ≤ 2 * (most_words + 1)) × (taken ≤ places) × (count ≤ widest) }
    ensures { result ≡ formed words.now taken count }
{
    let mut t = [0u64; ROWS];
    formed_in(words, taken, count, &mut t)
}

// The same, with a shorter table for fewer words, so that less is cleared and less of the machine's stack is taken.
fn is_well_formed(words: &[i32], taken: usize, count: usize) -> bool
    requires { (length words.now ≤ most_words) × (taken ≤ places) × (count ≤ widest) }
    ensures { result ≡ formed words.now taken count }
{
    match words.len() {
        ..32 => formed::<64>(words, taken, count),
        ..160 => formed::<320>(words, taken, count),
        ..=FLAT => formed::<FLAT_TABLE>(words, taken, count),
        _ => formed::<TABLE>(words, taken, count),
    }
}

// Are the words a flat form that takes `taken` values, 1 to 8, and leaves `count` numbers, 1 to 4?
#[tactic(auto, unfolding(crate::specs::Steps::well_formed))]
pub fn is_form(words: &[i32], taken: usize, count: usize) -> bool
    ensures { result ≡ well_formed words.now taken count }
{
    1 <= taken
        && taken <= VALUES
        && 1 <= count
        && count <= WIDEST
        && words.len() <= WORDS
        && is_well_formed(words, taken, count)
}
