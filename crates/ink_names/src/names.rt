// The name of a block, as a part of its page, and whether it is the name asked for.
ghost use Rattle.std.specs.Prelude.{◌≡◌, ◌+◌, ◌/◌, ◌<◌, ◌≤◌, length};
ghost use Rattle.page.specs.Outcomes.{accepted};
ghost use Rattle.page.specs.Validation.{validated};
ghost use Rattle.ink_names.specs.Names.{ink_at, name_start, same_name};
ghost use Rattle.ink_names.specs.Parts.{PartOf};

use record::{Body, NAME_FROM, body_at};

// Whether two names are the same, byte by byte.
// Kept: a function of its own over two names, so that a length that is not compared can be tried alone.
fn is_same(s: &[u8], t: &[u8]) -> bool
    ensures { result ≡ same_name s.now t.now }
{
    if s.len() != t.len() {
        return false;
    }
    for k in 0..t.len() {
        if s[k] != t[k] {
            return false;
        }
    }
    true
}

// Where the name of block n begins on its page.
pub fn name_start(n: u32) -> usize
    ensures { result ≡ name_start n }
{
    512 * (n as usize) + (NAME_FROM as usize)
}

// The first `size` bytes of the place of a name in block n.
pub fn name_part(page: &[u8], n: u32, size: usize) -> &[u8]
    requires { name_start n + size ≤ length page.now }
    ensures { PartOf page.entry (name_start n) size result }
{
    let from = name_start(n);
    &page[from..from + size]
}

// Whether block n of an accepted page is an ink of this name.
pub fn is_ink(page: &[u8], name: &[u8], n: u32) -> bool
    requires { (validated page.now ≡ accepted) × (n < length page.now / 512) }
    ensures { result ≡ ink_at page.now name.now n }
{
    let Body::Separation(p) = body_at(page, n) else {
        return false;
    };
    is_same(name_part(page, n, p.name_len as usize), name)
}
