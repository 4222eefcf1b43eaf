// What 7 is given for in a single block: bytes past a palette's end, and entries of C0 and C1 past the alternate's count.
ghost use Rattle.std.specs.Prelude.{◌≡◌, ◌≤◌};
ghost use Rattle.fixed.specs.Bytes.{block_at};
ghost use Rattle.record.specs.Layout.{room};
ghost use Rattle.record.specs.Rules.{is_zero, palette_ends, entries_end};

use crate::shape::zero_between;
use record::{Four, entries_of};

// Whether the part of a palette in block n has nothing after its first `size` bytes.
#[tactic(auto, unfolding(record::specs::Rules::palette_ends))]
pub fn palette_ends(page: &[u8], n: u32, size: u32) -> bool
    requires { size ≤ room }
    ensures { result ≡ palette_ends (block_at page.now n) size }
{
    zero_between(page, n, 4 + size, 508)
}

fn is_zero(v: i32) -> bool
    ensures { result ≡ is_zero v }
{
    v == 0
}

// Whether C0 or C1 has nothing after its first m entries.
#[tactic(auto, unfolding(record::specs::Rules::entries_end))]
pub fn entries_end(q: Four, m: u32) -> bool
    ensures { result ≡ entries_end q m }
{
    let entries = entries_of(q);
    for k in m..4 {
        if !is_zero(entries[k as usize]) {
            return false;
        }
    }
    true
}
