// What a Separation with C0 and C1 makes of its component: its tint.
ghost use Rattle.std.specs.Prelude.{◌≡◌, ◌≤◌};
ghost use Rattle.fixed.specs.Numbers.{tint_value};
ghost use Rattle.fixed.specs.Values.{widest, value, filled, tint_step};
ghost use Rattle.record.specs.Layout.{entries_of};

use fixed::{Colour, VALUES, is_outside, tint_power, tint_value, unit_part};
use record::{Separation, entries_of};

// The first m components of the alternate space, q millionths of the way from C0 to C1.
#[tactic(auto, unfolding(fixed::specs::Values::filled))]
fn fill_tint(c0: [i32; 4], c1: [i32; 4], m: u32, q: u32, v: [i32; VALUES]) -> [i32; VALUES]
    requires { (m ≤ widest) × (q ≤ 1000000) }
    ensures { result ≡ filled (λ k. tint_value (value c0 k) (value c1 k) q) m v }
{
    let mut values = v;
    for k in 0..m as usize {
        values[k] = tint_value(c0[k], c1[k], q);
    }
    values
}

// What value 0 tints: a colour of the alternate space, of m components, not limited yet.
pub fn tint(p: Separation, m: u32, c: Colour) -> Colour
    requires { m ≤ widest }
    ensures { result ≡ tint_step p.exponent m (entries_of p.c0) (entries_of p.c1) c }
{
    let t = c.values[0];
    let q = tint_power(unit_part(t), p.exponent as u32);
    Colour {
        values: fill_tint(entries_of(p.c0), entries_of(p.c1), m, q, c.values),
        moved: c.moved | is_outside(t, 0, 1000000),
    }
}
