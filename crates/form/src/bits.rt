// Kinds as bits.
ghost use Rattle.std.specs.Prelude.{◌≡◌, ◌≤◌, ◌<◌, ◌+◌, ◌-◌, eqb, length};
ghost use Rattle.stack.specs.Stack.{most, truth, same_kinds};
ghost use Rattle.stack.specs.Operators.{is_true};
ghost use Rattle.stack.specs.Memory.{stack_of};
ghost use Rattle.form.specs.Table.{kinds_up, low_part, bits_of};

use stack::{Stack, truth};

// A kind as a bit.
fn kind_bit(x: i32) -> u64
    ensures is { truth (eqb result 1) ≡ truth (is_true x) }
    ensures low { result ≤ 1 }
{
    u64::from(x > 0)
}

// Of h kinds those in the first word.
pub fn low_part(h: usize) -> usize
    ensures { result ≡ low_part h }
{
    h.min(50)
}

// The kinds from..to of a stack in bits, where the deepest stands first.
pub fn packed(kinds: &[i32], from: usize, to: usize) -> u64
    requires { (from ≤ to) × (to ≤ from + 50) × (to ≤ length kinds.now) }
    ensures is { kinds_up result (to - from) (bits_of (stack_of kinds.now from)) ≡ bits_of (stack_of kinds.now to) }
    ensures low { result < 1125899906842624 }
{
    let mut bits: u64 = 0;
    for i in (from..to).rev() {
        bits = 2 * bits + kind_bit(kinds[i]);
    }
    bits
}

// Are the kinds from..to of a stack those in bits, where the deepest stands first?
pub fn is_packed(bits: u64, kinds: &[i32], from: usize, to: usize) -> bool
    requires { (from ≤ to) × (to ≤ length kinds.now) }
    ensures { result ≡ same_kinds (bits_of (stack_of kinds.now to)) (kinds_up bits (to - from) (bits_of (stack_of kinds.now from))) }
{
    let mut rest = bits;
    for i in from..to {
        if kind_bit(kinds[i]) != rest % 2 {
            return false;
        }
        rest /= 2;
    }
    true
}

// n kinds in bits, on top of the stack.
pub fn unpack(bits: u64, n: usize, stack: &mut Stack)
    requires { length stack.old + n ≤ most }
    ensures { stack.new ≡ kinds_up bits n stack.old }
{
    let mut rest = bits;
    for i in 0..n {
        stack.push(truth(rest % 2 == 1));
        rest /= 2;
    }
}
