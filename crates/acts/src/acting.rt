// The steps on a colour. The words of a step stand at the front of l.
ghost use Rattle.std.specs.Prelude.{◌≡◌, ◌+◌, ◌*◌, ◌<◌, ◌≤◌, drop};
ghost use Rattle.fixed.specs.Numbers.{tint_value};
ghost use Rattle.fixed.specs.Values.{places, value, filled, limit_step, row_step, tint_step};
ghost use Rattle.form.specs.Steps.{part_of, form_step};

use fixed::{
    Colour, VALUES, index_of, is_outside, limit, tint_power, tint_value, unit_part, value_at,
};

// Value k limited to lo..hi. It goes over all places, so that no index is unknown and the values stay in registers.
pub fn limit_step(k: u32, lo: i32, hi: i32, c: Colour) -> Colour
    requires { k < places }
    ensures { result ≡ limit_step k lo hi c }
{
    let mut moved = c.moved;
    let mut values = c.values;
    for i in 0..VALUES {
        if i == k as usize {
            let v = values[i];
            values[i] = limit(v, lo, hi);
            moved |= is_outside(v, lo, hi);
        }
    }
    Colour { values, moved }
}

// The first m values are the m words from `at` on.
#[tactic(auto, unfolding(fixed::specs::Values::filled))]
fn fill_row(l: &[i32], at: usize, m: usize, v: [i32; VALUES]) -> [i32; VALUES]
    requires { (at ≤ places * 256) × (m ≤ places) }
    ensures { result ≡ filled (λ k. value l.now (at + k)) m v }
{
    let mut values = v;
    for k in 0..m {
        values[k] = value_at(l, at + k);
    }
    values
}

// The row that value 0 picks of rows 0..h, m entries each.
pub fn row_step(l: &[i32], m: u32, h: u32, c: Colour) -> Colour
    requires { (m ≤ places) × (h ≤ 255) }
    ensures { result ≡ row_step m h (drop 3 l.now) c }
{
    let index = index_of(c.values[0], h);
    let at = 3 + index.row as usize * m as usize;
    Colour {
        values: fill_row(l, at, m as usize, c.values),
        moved: c.moved | index.outside,
    }
}

// The first m values are q millionths of the way from the m C0s to the m C1s.
#[tactic(auto, unfolding(fixed::specs::Values::filled))]
fn fill_tint(l: &[i32], m: usize, q: u32, v: [i32; VALUES]) -> [i32; VALUES]
    requires { (m ≤ places) × (q ≤ 1000000) }
    ensures { result ≡ filled (λ k. tint_value (value l.now (3 + k)) (value l.now (3 + m + k)) q) m v }
{
    let mut values = v;
    for k in 0..m {
        values[k] = tint_value(value_at(l, 3 + k), value_at(l, 3 + m + k), q);
    }
    values
}

// The tint, value 0 limited to 0..1, to the exponent e.
pub fn tint_step(l: &[i32], e: u32, m: u32, c: Colour) -> Colour
    requires { m ≤ places }
    ensures { result ≡ tint_step e m (drop 3 l.now) (drop (3 + m) l.now) c }
{
    let tint = c.values[0];
    let q = tint_power(unit_part(tint), e);
    Colour {
        values: fill_tint(l, m as usize, q, c.values),
        moved: c.moved | is_outside(tint, 0, 1000000),
    }
}

// The program of n words from `at` on, which takes t values and leaves m numbers.
pub fn program_step(l: &[i32], t: u32, m: u32, at: u32, n: u32, c: Colour) -> Colour
    requires { t ≤ places }
    ensures { result ≡ form_step t m (part_of l.now at n) c }
{
    let mut values = c.values;
    let out = tinting::step(
        l,
        at as usize,
        n as usize,
        t as usize,
        m as usize,
        &mut values,
    );
    Colour {
        values,
        moved: c.moved | out,
    }
}
