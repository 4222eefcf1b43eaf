// Sums, differences and products of millionths, each to the nearest that fits 32 bits.
// A product is taken over numbers raised so that none is negative.
ghost use Rattle.std.specs.Prelude.{◌≡◌, ◌≤◌, neg_ℤ, nat_abs};
ghost use Rattle.std.proofs.Math.IntN.{sub_ℕ};
ghost use Rattle.fixed.specs.Numbers.{half_up};
ghost use Rattle.stack.specs.Programs.{add, sub, mul, abs};
ghost use Rattle.stack.specs.Operators.{fitted, signed_by, sum_of, one_of};

use fixed::lowered;

// The nearest to q - k that fits 32 bits.
fn fit(q: u64, k: u64) -> i32
    requires { 2147483648 ≤ k }
    ensures { result ≡ fitted (sub_ℕ q k) }
{
    if q < k - 2147483648 {
        return -2147483648;
    }
    let u = q - (k - 2147483648);
    if 4294967295 < u {
        return 2147483647;
    }
    lowered(u)
}

// x + y.
pub fn add(x: i32, y: i32) -> i32
    ensures { result ≡ sum_of add x y }
{
    x.saturating_add(y)
}

// x - y.
pub fn sub(x: i32, y: i32) -> i32
    ensures { result ≡ sum_of sub x y }
{
    x.saturating_sub(y)
}

// -x.
pub fn negative(x: i32) -> i32
    ensures { result ≡ fitted (neg_ℤ x) }
{
    x.saturating_neg()
}

// How far x is from 0.
pub fn size_of(x: i32) -> u64
    ensures is { result ≡ nat_abs x }
    ensures small { result ≤ 2147483648 }
{
    u64::from(x.unsigned_abs())
}

// p millionths of millionths, or -p, rounded half up: raised by 4611686018428 millions, none is negative.
fn product(p: u64, minus: bool) -> i32
    requires { p ≤ 4611686018427387904 }
    ensures { result ≡ fitted (half_up (signed_by minus p) 1000000) }
{
    if minus {
        return fit((4611686018428000000 - p + 500000) / 1000000, 4611686018428);
    }
    fit((4611686018428000000 + p + 500000) / 1000000, 4611686018428)
}

// x y, rounded half up once.
pub fn mul(x: i32, y: i32) -> i32
    ensures { result ≡ sum_of mul x y }
{
    let m = size_of(x);
    let n = size_of(y);
    product(m * n, (x < 0) != (y < 0))
}

// How far x is from 0: 2147483647 for the least.
pub fn absolute(x: i32) -> i32
    ensures { result ≡ one_of abs x }
{
    if x < 0 {
        return negative(x);
    }
    x
}
