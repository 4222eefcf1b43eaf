// What an Indexed makes of its index: a row of its palette.
ghost use Rattle.std.specs.Prelude.{◌≡◌, ◌+◌, ◌*◌, ◌≤◌};
ghost use Rattle.fixed.specs.Numbers.{OverOne};
ghost use Rattle.fixed.specs.Values.{places, filled};
ghost use Rattle.space.specs.Spaces.{Space};
ghost use Rattle.space.specs.Pages.{entries, entry_of, row_at};
ghost use Rattle.space.specs.Levels.{space_in, Ranged};

use fixed::{Colour, VALUES, index_of, over_one};
use space::{Bounds, Level, bounds_of, count};
use tables::entry;

// The m entries of a row of the table of the Indexed block n, over a space of m components, whose ranges have these bounds; `table` has the values over 0..1.
fn fill_row(
    page: &[u8],
    table: &[u32],
    n: u16,
    m: u32,
    bounds: Bounds,
    row: u32,
    v: [i32; VALUES],
) -> [i32; VALUES]
    requires { (row * m + m ≤ entries) × (m ≤ places) × OverOne table.now }
    ensures { (s : Space) → Ranged s m bounds.lo bounds.hi → result ≡ filled (λ k. entry_of page.now n s (row * m + k)) m v }
{
    let mut values = v;
    for k in 0..m {
        values[k as usize] = entry(page, table, n, k as usize, bounds, row * m + k);
    }
    values
}

// The same. The values over 0..1 are made where the first range ends at 1: a Lab's does not, and has no use for them.
#[tactic(auto, unfolding(fixed::specs::Numbers::OverOne))]
fn row_of(page: &[u8], n: u16, m: u32, bounds: Bounds, row: u32, v: [i32; VALUES]) -> [i32; VALUES]
    requires { (row * m + m ≤ entries) × (m ≤ places) }
    ensures { (s : Space) → Ranged s m bounds.lo bounds.hi → result ≡ filled (λ k. entry_of page.now n s (row * m + k)) m v }
{
    if bounds.hi[0] == 1000000 {
        return fill_row(page, &over_one(), n, m, bounds, row, v);
    }
    fill_row(page, &[], n, m, bounds, row, v)
}

// The row of the palette of the Indexed block n that value 0 picks: a colour of its base s.
pub fn pick_row(page: &[u8], n: u16, hival: u16, s: Level, c: Colour) -> Colour
    ensures { result ≡ row_at page.now n hival (space_in page.now s) c }
{
    let index = index_of(c.values[0], hival as u32);
    Colour {
        values: row_of(page, n, count(s), bounds_of(s), index.row, c.values),
        moved: c.moved | index.outside,
    }
}
