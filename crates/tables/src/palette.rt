// The palette of an Indexed block.
ghost use Rattle.std.specs.Prelude.{◌≡◌, ℕ, ◌<◌, ◌≤◌, ◌%◌};
ghost use Rattle.fixed.specs.Numbers.{OverOne};
ghost use Rattle.fixed.specs.Values.{places};
ghost use Rattle.space.specs.Numbers.{palette_byte};
ghost use Rattle.space.specs.Spaces.{Space};
ghost use Rattle.space.specs.Pages.{entries, entry_of};
ghost use Rattle.space.specs.Levels.{Ranged};

use fixed::palette_value;
use record::{ROOM, palette_at};
use space::Bounds;

// Byte j of the palette after the Indexed block n.
#[tactic(auto, unfolding(space::specs::Numbers::palette_byte))]
fn palette_byte(page: &[u8], n: u16, j: u32) -> u32
    requires { j ≤ entries }
    ensures is { result ≡ palette_byte page.now n j }
    ensures small { result ≤ 255 }
{
    palette_at(page, n as u32 + 1 + j / ROOM, j % ROOM)
}

// Entry j of the table of the Indexed block n, which is of component k of a space whose ranges have these bounds; `table` has the values over 0..1.
pub fn entry(page: &[u8], table: &[u32], n: u16, k: usize, bounds: Bounds, j: u32) -> i32
    requires { (j ≤ entries) × (k < places) × OverOne table.now }
    ensures { (s : Space) (m : ℕ) → Ranged s m bounds.lo bounds.hi → k ≡ j % m → result ≡ entry_of page.now n s j }
{
    palette_value(table, palette_byte(page, n, j), bounds.lo[k], bounds.hi[k])
}
