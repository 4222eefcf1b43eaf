// The components of a colour, each limited to its range in a space.
ghost use Rattle.std.specs.Prelude.{◌≡◌, ◌≤◌};
ghost use Rattle.fixed.specs.Values.{places};
ghost use Rattle.space.specs.Spaces.{Space};
ghost use Rattle.space.specs.Levels.{Ends};
ghost use Rattle.values.specs.Limits.{limited_to};

use fixed::Colour;
use space::Bounds;

// The first m values, each limited to its range, by these bounds.
pub fn limit_all(m: u32, bounds: Bounds, c: Colour) -> Colour
    requires { m ≤ places }
    ensures { (s : Space) → Ends s bounds.lo bounds.hi → result ≡ limited_to s m c }
{
    let mut colour = c;
    for k in 0..m as usize {
        colour = colour.limited(k, bounds.lo[k], bounds.hi[k]);
    }
    colour
}
