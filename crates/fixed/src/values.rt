// Lists of numbers, read anywhere: what is past the end is 0; and the values that a colour starts with.
ghost use Rattle.std.specs.Prelude.{◌≡◌};
ghost use Rattle.fixed.specs.Values.{places, value, small_of, started};

use crate::VALUES;
use crate::limits::{is_outside, limit};

// A colour on its way from its components to an answer.
// Kept: the flag is no sign that the values are missing, but a part of the answer.
#[derive(Clone, Copy, Debug, PartialEq, Eq)]
pub struct Colour {
    // Its values; at the start the components, and 0 where none is given.
    pub values: [i32; VALUES],
    // Whether a limit has moved anything so far.
    pub moved: bool,
}

impl Colour {
    ghost use Rattle.std.specs.Prelude.{◌≡◌, ◌<◌};
    ghost use Rattle.fixed.specs.Values.{places, limit_step};

    // The colour with value k limited to lo..hi, which moves it where that value lies outside.
    #[tactic(auto, unfolding(crate::specs::Values::limit_step, crate::specs::Values::limited_at))]
    pub fn limited(self, k: usize, lo: i32, hi: i32) -> Colour
        requires { k < places }
        ensures { result ≡ limit_step k lo hi self }
    {
        let value = self.values[k];
        let mut values = self.values;
        values[k] = limit(value, lo, hi);
        let moved = self.moved || is_outside(value, lo, hi);
        Colour { values, moved }
    }
}

// Number k of a list, 0 where there is none.
// Kept: 0 is no sign that there is none, but what a list has past its end (the definition `value`).
pub fn value_at(l: &[i32], k: usize) -> i32
    ensures { result ≡ value l.now k }
{
    l.get(k).copied().unwrap_or(0)
}

// A number that is not negative, as it is; a negative one is 4294967295, which is beyond every bound.
pub fn small(v: i32) -> u32
    ensures { result ≡ small_of v }
{
    u32::try_from(v).unwrap_or(u32::MAX)
}

// Number k of a list as a small number: a negative one is 4294967295, which is beyond every bound.
pub fn small_at(l: &[i32], k: usize) -> u32
    ensures { result ≡ small_of (value l.now k) }
{
    small(value_at(l, k))
}

// What a colour starts with: its components, 0 where none is given, and nothing has moved.
pub fn start(components: &[i32]) -> Colour
    ensures { result ≡ started places components.now }
{
    let mut values = [0; VALUES];
    for (k, value) in values.iter_mut().enumerate() {
        *value = value_at(components, k);
    }
    Colour {
        values,
        moved: false,
    }
}
