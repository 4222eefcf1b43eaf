// The table of places: two words for each, and what paths bring to them.
ghost use Rattle.std.specs.Prelude.{◌≡◌, ◌≤◌, ◌+◌, ◌*◌, length, MatchOption};
ghost use Rattle.stack.specs.Stack.{most, same_kinds};
ghost use Rattle.form.specs.Table.{head_at, kinds_at, places_from, Low, bits_of, Stored, arrived};
ghost use Rattle.form.specs.Paths.{comes};

use crate::bits::{is_packed, low_part, packed, unpack};
use stack::Stack;

// The height at place p, none where no path came yet.
pub fn head(t: &[u64], p: usize) -> Option<usize>
    requires { 2 * p + 2 ≤ length t.now }
    ensures { MatchOption result (head_at t.now p ≡ 0) (λ h. head_at t.now p ≡ h + 1) }
{
    ((t[2 * p] % 128) as usize).checked_sub(1)
}

// The h kinds of row p, as the stack.
#[tactic(auto, unfolding(crate::specs::Table::kinds_by))]
pub fn load(t: &[u64], p: usize, h: usize, stack: &mut Stack)
    requires { (h ≤ most) × (2 * p + 2 ≤ length t.now) }
    ensures { stack.new ≡ kinds_at t.now p h }
{
    let m = low_part(h);
    stack.clear();
    unpack(t[2 * p] / 128, m, stack);
    unpack(t[2 * p + 1], h - m, stack);
}

// The stack's kinds in row q.
fn store(t: &mut [u64], q: usize, stack: &Stack)
    requires { 2 * q + 2 ≤ length t.old }
    ensures { Stored t.old t.new q (bits_of stack.now) }
{
    let kinds = stack.values();
    let h = kinds.len();
    let m = low_part(h);
    let x = packed(kinds, 0, m);
    let y = packed(kinds, m, h);
    t[2 * q] = x * 128 + (h as u64 + 1);
    t[2 * q + 1] = y;
}

// Are the kinds of row q, as many as the stack has, those of the stack? They are compared where they stand, in the row.
pub fn same(t: &[u64], q: usize, stack: &Stack) -> bool
    requires { 2 * q + 2 ≤ length t.now }
    ensures { result ≡ same_kinds (bits_of stack.now) (kinds_at t.now q (length stack.now)) }
{
    let kinds = stack.values();
    let h = kinds.len();
    let m = low_part(h);
    is_packed(t[2 * q] / 128, kinds, 0, m) && is_packed(t[2 * q + 1], kinds, m, h)
}

// A path comes with the stack's kinds to place q of n.
pub fn arrive(t: &mut [u64], n: usize, q: usize, stack: &Stack) -> bool
    requires { (2 * n ≤ length t.old) × Low t.old }
    ensures is { arrived result (places_from t.new 0 n) ≡ comes (bits_of stack.now) q (places_from t.old 0 n) }
    ensures low { Low t.new }
{
    if n <= q {
        return false;
    }
    match head(t, q) {
        None => {
            store(t, q, stack);
            true
        }
        Some(h) if h == stack.height() => same(t, q, stack),
        Some(_) => false,
    }
}
