// The kind of a number.
ghost use Rattle.std.specs.Prelude.{◌≡◌};
ghost use Rattle.space.specs.Numbers.{kind_numbered};

use fixed::BLOCKS;
use record::kind_at;

// What a number stands for. A block's number gives the kind of that block, 0 where the page has no such block. Any other number is given back as it is,
// so a device code is its own kind.
// Kept: the byte that a page holds, which need be no kind, or the number itself: `kind_numbered` says both in one number, and listings print it.
#[tactic(auto, unfolding(crate::specs::Numbers::kind_numbered))]
pub fn kind(page: &[u8], n: u32) -> u32
    ensures { result ≡ kind_numbered page.now n }
{
    if n < BLOCKS {
        return kind_at(page, n);
    }
    n
}
