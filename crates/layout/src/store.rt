// Storing one field: each leaves the bytes with that field from `at` on, and all other bytes as they were.
#![tactic(auto, unfolding(crate::specs::Field::puts))]

ghost use Rattle.std.specs.Prelude.{◌≡◌, [], ◌∷◌, ◌+◌, ◌-◌, ◌<◌, ◌≤◌, length};
ghost use Rattle.layout.specs.Field.{one, two, num, run, gap, puts};

// Stores a byte.
pub fn put_one(out: &mut [u8], at: usize, n: u8)
    requires { at < length out.old }
    ensures { out.new ≡ puts out.old at (one n ∷ []) }
{
    out[at] = n;
}

// Stores a number of two bytes.
pub fn put_two(out: &mut [u8], at: usize, n: u32)
    requires { at + 2 ≤ length out.old }
    ensures { out.new ≡ puts out.old at (two n ∷ []) }
{
    octets::put_two(out, at, n);
}

// Stores a signed number of four bytes.
pub fn put_num(out: &mut [u8], at: usize, v: i32)
    requires { at + 4 ≤ length out.old }
    ensures { out.new ≡ puts out.old at (num v ∷ []) }
{
    octets::put_number(out, at, v);
}

// Stores the first n bytes of s.
// Kept: (s, n), for the field of the definition is `run n s`, the first n bytes of a room.
pub fn put_run(out: &mut [u8], at: usize, s: &[u8], n: usize)
    requires { (n ≤ length s.now) × (at + n ≤ length out.old) }
    ensures { out.new ≡ puts out.old at (run n s.now ∷ []) }
{
    out[at..at + n].copy_from_slice(&s[..n]);
}

// Stores zeros up to byte `to`.
pub fn put_zeros(out: &mut [u8], at: usize, to: usize)
    requires { (at ≤ to) × (to ≤ length out.old) }
    ensures { out.new ≡ puts out.old at (gap (to - at) ∷ []) }
{
    out[at..to].fill(0);
}
