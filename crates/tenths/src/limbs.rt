// Whole numbers of any size in limbs, the least first: a limb counts to 10000 * 10000. Two factors of at most 10000 make one limb more, and to leave the lowest
// limb out is to divide by 10000 * 10000.
ghost use Rattle.std.specs.Prelude.{◌≡◌, ◌+◌, ◌*◌, ◌≤◌, ◌<◌, leb, length, take};
ghost use Rattle.tenths.specs.Limbs.{base, Limbs, value_of, Times, factor_of, mixed};

// What a limb counts to.
const BASE: u64 = 100000000;

// The first `used` limbs of n, times k; the product has one limb more.
// Kept: `used` beside n, for the limbs past it are zeros that the product grows into.
fn mul_small(n: &mut [u64], used: usize, k: u64)
    requires { (used < length n.old) × (k ≤ base) × Limbs n.old }
    ensures { Times k used n.old n.new }
{
    let mut carry: u64 = 0;
    for i in 0..used {
        let t = n[i] * k + carry;
        n[i] = t % BASE;
        carry = t / BASE;
    }
    n[used] = carry;
}

// Factor j of a product: u for the first p, 10000 from there on.
fn factor(u: u64, p: usize, j: usize) -> u64
    ensures { result ≡ factor_of u p j }
{
    if j < p { u } else { 10000 }
}

// The product of the first 2 * count factors, in count + 1 limbs.
pub fn product(n: &mut [u64], u: u64, p: usize, count: usize)
    requires { (count < length n.old) × (u ≤ 10000) × Limbs n.old }
    ensures { Limbs n.new × (value_of (take (count + 1) n.new) ≡ mixed u p (2 * count)) }
{
    n[0] = 1;
    for i in 0..count {
        let a = factor(u, p, 2 * i);
        let b = factor(u, p, 2 * i + 1);
        mul_small(n, i + 1, a * b);
    }
}

// Whether the number a is at most the number b, of as many limbs: from the top, the first limb that differs decides.
pub fn at_most(a: &[u64], b: &[u64]) -> bool
    requires { (length a.now ≡ length b.now) × Limbs a.now × Limbs b.now }
    ensures { result ≡ leb (value_of a.now) (value_of b.now) }
{
    for i in (0..a.len()).rev() {
        if a[i] != b[i] {
            return a[i] < b[i];
        }
    }
    true
}
