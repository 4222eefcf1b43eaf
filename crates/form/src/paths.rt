// Where the paths from an item go.
ghost use Rattle.std.specs.Prelude.{◌≡◌, ◌≤◌, ◌<◌, ◌*◌, length, IfSome};
ghost use Rattle.fixed.specs.Values.{small_of};
ghost use Rattle.stack.specs.Judging.{tests};
ghost use Rattle.stack.specs.Flat.{unless};
ghost use Rattle.stack.specs.Meant.{item_meant};
ghost use Rattle.form.specs.Paths.{met, comes, width_of};
ghost use Rattle.form.specs.Table.{place_at, places_from, Low, bits_of, left, leaves_at};

use crate::needs::fine;
use crate::table::arrive;
use stack::{Item, Stack, small};

// How many words of an item follow its first.
pub fn width(item: Item) -> usize
    ensures { result ≡ width_of (item_meant item) }
{
    match item {
        Item::Op(op) => op.width(),
        Item::Unless(_) | Item::Jump(_) => 1,
    }
}

// A truth value is on top.
fn tests(stack: &Stack) -> bool
    ensures { result ≡ tests stack.now }
{
    stack.height() >= 1 && stack.value_at(0) == 1
}

// A path comes with the stack's kinds to place q of n: the place, none where something is wrong.
fn come(t: &mut [u64], n: usize, q: usize, stack: &Stack) -> Option<usize>
    requires { (2 * n ≤ length t.old) × Low t.old }
    ensures is { left result (places_from t.new 0 n) ≡ comes (bits_of stack.now) q (places_from t.old 0 n) }
    ensures stands { IfSome result (λ r. (r ≡ q) × (place_at t.new r ≡ met (bits_of stack.now))) }
    ensures low { Low t.new }
{
    if arrive(t, n, q, stack) {
        Some(q)
    } else {
        None
    }
}

// The paths of `5 k` at place p: on past it, and k words further. The place past it, whose kinds the stack has, none where something is wrong.
fn leave_unless(x: i32, t: &mut [u64], n: usize, p: usize, stack: &mut Stack) -> Option<usize>
    requires { (2 * n ≤ length t.old) × Low t.old × (p < n) × (bits_of stack.old ≡ stack.old) }
    ensures is { left result (places_from t.new 0 n) ≡ leaves_at (unless (small_of x)) stack.old p (places_from t.old 0 n) }
    ensures stands { IfSome result (λ q. place_at t.new q ≡ met stack.new) }
    ensures low { Low t.new }
{
    if !tests(stack) {
        return None;
    }
    stack.discard(1);
    let next = come(t, n, p + 1 + 1, stack)?;
    come(t, n, p + 1 + (1 + small(x)), stack)?;
    Some(next)
}

// The paths of the item at place p of n. A place whose kinds the stack has, which is that past the item but for a jump; none where something is wrong.
pub fn leave(item: Item, t: &mut [u64], n: usize, p: usize, stack: &mut Stack) -> Option<usize>
    requires { (2 * n ≤ length t.old) × Low t.old × (p < n) × (bits_of stack.old ≡ stack.old) }
    ensures is { left result (places_from t.new 0 n) ≡ leaves_at (item_meant item) stack.old p (places_from t.old 0 n) }
    ensures stands { IfSome result (λ q. place_at t.new q ≡ met stack.new) }
    ensures low { Low t.new }
{
    match item {
        Item::Op(op) => {
            if !fine(op, stack) {
                return None;
            }
            stack.act(op, true);
            come(t, n, p + 1 + op.width(), stack)
        }
        Item::Unless(x) => leave_unless(x, t, n, p, stack),
        Item::Jump(x) => come(t, n, p + 1 + (1 + small(x)), stack),
    }
}
