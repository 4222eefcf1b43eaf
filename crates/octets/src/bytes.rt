// Numbers in bytes, the most significant byte first, signed ones in two's complement.
//
// A number is read at a place of a block: byte `at` of block n of a page. A block that stands alone is block 0. A byte past the end is 0.
// Kept: a place is (page, n, at), as the clauses have it (`block_at page n`): a struct of page and number would be made for one call each.
ghost use Rattle.std.specs.Prelude.{◌≡◌, ◌+◌, ◌<◌, ◌≤◌, length, drop};
ghost use Rattle.std.proofs.lemmas.List.Edits.{sets};
ghost use Rattle.fixed.specs.Bytes.{block_at, byte_at, two_at, number_at, signed, bits, two_bytes, number_bytes};

// The number whose bits are u's.
pub fn to_signed(u: u32) -> i32
    ensures { result ≡ signed u }
{
    u.cast_signed()
}

// The bits of v.
pub fn of_signed(v: i32) -> u32
    ensures { result ≡ bits v }
{
    v.cast_unsigned()
}

// Byte k of a page, 0 where it has none.
// Kept: 0 is no sign that there is none, but what a page holds past its end.
fn octet(page: &[u8], k: usize) -> u8
    ensures { result ≡ byte_at page.now k }
{
    page.get(k).copied().unwrap_or(0)
}

// Byte `at` of block n.
pub fn byte_at(page: &[u8], n: u32, at: u32) -> u32
    ensures is { result ≡ byte_at (block_at page.now n) at }
    ensures small { result ≤ 255 }
{
    u32::from(octet(page, 512 * n as usize + at as usize))
}

// Byte `at` of the part of a page from byte `start` on, which has it.
pub fn byte_in(page: &[u8], start: usize, at: usize) -> u32
    requires { start + at < length page.now }
    ensures is { result ≡ byte_at (drop start page.now) at }
    ensures small { result ≤ 255 }
{
    u32::from(page[start + at])
}

// The number in its two bytes from `at` on, which it has.
pub fn two_in(page: &[u8], start: usize, at: usize) -> u32
    requires { start + at + 2 ≤ length page.now }
    ensures is { result ≡ two_at (drop start page.now) at }
    ensures small { result ≤ 65535 }
{
    let k = start + at;
    u32::from(u16::from_be_bytes([page[k], page[k + 1]]))
}

// The number in the two bytes from `at` on of block n.
pub fn two_at(page: &[u8], n: u32, at: u32) -> u32
    requires { at < 512 }
    ensures is { result ≡ two_at (block_at page.now n) at }
    ensures small { result ≤ 65535 }
{
    let k = 512 * n as usize + at as usize;
    u32::from(u16::from_be_bytes([octet(page, k), octet(page, k + 1)]))
}

// The signed number in the four bytes from `at` on of the part of a page from byte `start` on, which has them.
#[tactic(auto, unfolding(fixed::specs::Bytes::number_at))]
pub fn number_in(page: &[u8], start: usize, at: usize) -> i32
    requires { start + at + 4 ≤ length page.now }
    ensures { result ≡ number_at (drop start page.now) at }
{
    let k = start + at;
    i32::from_be_bytes([page[k], page[k + 1], page[k + 2], page[k + 3]])
}

// The signed number in the four bytes from `at` on of block n.
#[tactic(auto, unfolding(fixed::specs::Bytes::number_at))]
pub fn number_at(page: &[u8], n: u32, at: u32) -> i32
    requires { at < 512 }
    ensures { result ≡ number_at (block_at page.now n) at }
{
    let k = 512 * n as usize + at as usize;
    i32::from_be_bytes([
        octet(page, k),
        octet(page, k + 1),
        octet(page, k + 2),
        octet(page, k + 3),
    ])
}

// Stores v in two bytes from `at` on.
#[tactic(auto, unfolding(fixed::specs::Bytes::two_bytes))]
pub fn put_two(out: &mut [u8], at: usize, v: u32)
    requires { at + 2 ≤ length out.old }
    ensures { out.new ≡ sets out.old at (two_bytes v) }
{
    let [_, _, high, low] = v.to_be_bytes();
    out[at..at + 2].copy_from_slice(&[high, low]);
}

// Stores v in four bytes from `at` on.
#[tactic(auto, unfolding(fixed::specs::Bytes::four_bytes))]
pub fn put_number(out: &mut [u8], at: usize, v: i32)
    requires { at + 4 ≤ length out.old }
    ensures { out.new ≡ sets out.old at (number_bytes v) }
{
    out[at..at + 4].copy_from_slice(&v.to_be_bytes());
}
