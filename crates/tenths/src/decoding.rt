// Decode by gammas that are not whole, of p tenths: v / 10000 with the greatest v of 0..10000 with v^10 * 10000^p <= u^p * 10000^10.
ghost use Rattle.std.specs.Prelude.{◌≡◌, ◌+◌, ◌*◌, ◌-◌, ◌^◌, ◌/◌, ◌≤◌, leb, length, take, drop};
ghost use Rattle.fixed.specs.Numbers.{most_tenths};
ghost use Rattle.tenths.specs.Limbs.{Limbs, value_of};
ghost use Rattle.tenths.specs.Tenths.{reaches, greatest_of, settled, ten_thousandths, decoded_tenths};

use crate::limbs::{at_most, product};
use fixed::unit_part;

// Whether v^e * 10000^(2k - e), of k pairs of factors, is at most the number of x's k + 1 limbs. The exponents that occur most stand as numbers of their own,
// which the compiler unrolls.
fn settles(v: u64, e: usize, x: &[u64]) -> bool
    requires { (v ≤ 10000) × (e ≤ 10) × (length x.now ≡ (e + 1) / 2 + 1) × Limbs x.now }
    ensures { let k = (e + 1) / 2 in result ≡ leb (v ^ e * 10000 ^ (2 * k - e)) (value_of x.now) }
{
    let mut y = [0u64; 6];
    match e {
        5 => {
            product(&mut y, v, 5, 3);
            at_most(&y[..4], x)
        }
        10 => {
            product(&mut y, v, 10, 5);
            at_most(&y, x)
        }
        _ => {
            let k = e.div_ceil(2);
            product(&mut y, v, e, k);
            at_most(&y[..k + 1], x)
        }
    }
}

// How many pairs of factors the product of u has: room for q that are u, and no fewer than the product of a probe.
fn pairs(q: usize, e: usize) -> usize
    requires { (1 ≤ q) × (q ≤ most_tenths) × (1 ≤ e) × (e ≤ 10) }
    ensures { ((e + 1) / 2 ≤ result) × (result ≤ 20) × (q ≤ 2 * result) × (2 * result ≤ q + e) }
{
    q.div_ceil(2).max(e.div_ceil(2))
}

// The greatest v of 0..10000 with v^e * 10000^q <= u^q * 10000^e. lo keeps it, hi does not, and the search stops at the first v that is settled.
fn bisect(u: u64, q: usize, e: usize) -> u64
    requires { (u ≤ 10000) × (1 ≤ q) × (q ≤ most_tenths) × (1 ≤ e) × (e ≤ 10) }
    ensures { result ≡ greatest_of (reaches e q u) 10000 }
{
    let mut x = [0u64; 21];
    let count = pairs(q, e);
    product(&mut x, u, q, count);
    let top = &x[count - e.div_ceil(2)..count + 1];
    let mut lo: u64 = 0;
    let mut hi: u64 = 10001;
    // Kept: a loop that gives v by break, which the customer names (docs/DECISIONS.md, Forms by place in the code).
    let v = loop {
        if hi - lo <= 1 {
            break lo;
        }
        let m = (lo + hi) / 2;
        if settles(m, e, top) {
            lo = m;
        } else {
            hi = m;
        }
    };
    v
}

// The same of p and 10 by exponents that share no factor, so that products are shorter.
fn settle(u: u64, p: usize) -> u64
    requires { (u ≤ 10000) × (1 ≤ p) × (p ≤ most_tenths) }
    ensures { result ≡ settled p u }
{
    if p % 2 == 0 {
        bisect(u, p / 2, 5)
    } else if p % 5 == 0 {
        bisect(u, p / 5, 2)
    } else {
        bisect(u, p, 10)
    }
}

// A component in millionths, past 0..1 the nearer end, in ten-thousandths. This is no limiting of the component: it stays what it is.
fn ten_thousandths(a: i32) -> u64
    ensures is { result ≡ ten_thousandths a }
    ensures small { result ≤ 10000 }
{
    (unit_part(a) as u64 + 50) / 100
}

// The component a, in millionths, decoded by p tenths.
pub fn decode_tenths(a: i32, p: u32) -> f64
    requires { (1 ≤ p) × (p ≤ most_tenths) }
    ensures { result ≡ decoded_tenths p a }
{
    settle(ten_thousandths(a), p as usize) as f64 / 10000.0
}
