// Text put into lent bytes, from a place on. Each function gives the place after its text, and what has no room is left out.
// Kept: (out, at), as `Put n out.old at text out.new result` says it: with a writer its clause would name two fields of it four times.
ghost use Rattle.std.specs.Prelude.{◌+◌, ◌≤◌, [], ◌∷◌, ◌++◌, length};
ghost use Rattle.digits.specs.Digits.{digits};
ghost use Rattle.digits.specs.Puts.{Put, furthest};

// Puts a byte.
fn put_byte(out: &mut [u8], at: usize, x: u8) -> usize
    requires { at ≤ furthest }
    ensures { Put 1 out.old at (x ∷ []) out.new result }
{
    if at < out.len() {
        out[at] = x;
    }
    at + 1
}

// Puts the bytes of s.
pub fn put_text(out: &mut [u8], at: usize, s: &[u8]) -> usize
    requires { at + length s.now ≤ furthest }
    ensures { Put (length s.now) out.old at s.now out.new result }
{
    for (i, byte) in s.iter().enumerate() {
        put_byte(out, at + i, *byte);
    }
    at + s.len()
}

// Puts a number in decimal: what stands before its last digit, where it has more than one, and then that digit.
pub fn put_number(out: &mut [u8], at: usize, n: u32) -> usize
    requires { at + 10 ≤ furthest }
    ensures { Put 10 out.old at (digits n) out.new result }
{
    if n < 10 {
        return put_byte(out, at, b'0' + n as u8);
    }
    let next = put_number(out, at, n / 10);
    put_byte(out, next, b'0' + (n % 10) as u8)
}

// Puts a number in decimal, and a byte after it.
pub fn put_column(out: &mut [u8], at: usize, n: u32, end: u8) -> usize
    requires { at + 11 ≤ furthest }
    ensures { Put 11 out.old at (digits n ++ (end ∷ [])) out.new result }
{
    let next = put_number(out, at, n);
    put_byte(out, next, end)
}
