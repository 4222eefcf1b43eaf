// A flat form that stands among other words, as step 12 or 13 in a recipe, on the values of a colour.
ghost use Rattle.std.specs.Prelude.{◌≡◌, ◌≤◌};
ghost use Rattle.fixed.specs.Values.{places};
ghost use Rattle.form.specs.Steps.{part_of, tints_outside, form_values};

use crate::stepping::{is_moving, run};
use fixed::VALUES;

// The n words from `at` on, as many as there are, on the values, of which they take the first t. By its hint the function stays one of its own when it is
// compiled: the stack takes memory only while a program is run, and none in a recipe without one. The values are lent and not a whole colour, since what goes to
// and from this call has its place in the frame of every run of a recipe.
#[inline(never)]
fn run_at(words: &[i32], at: usize, n: usize, t: usize, count: usize, values: &mut [i32; VALUES])
    requires { t ≤ places }
    ensures { values.new ≡ form_values t count (part_of words.now at n) values.old }
{
    let start = at.min(words.len());
    let rest = &words[start..];
    run(&rest[..n.min(rest.len())], t, count, values);
}

// Step 12 or 13 of the n words from `at` on, as many as there are, which take t values, each limited to 0..1, and whose `count` results replace the values from
// 0. It says whether limiting moved one of them.
pub fn step(
    words: &[i32],
    at: usize,
    n: usize,
    t: usize,
    count: usize,
    values: &mut [i32; VALUES],
) -> bool
    requires { t ≤ places }
    ensures leaves { values.new ≡ form_values t count (part_of words.now at n) values.old }
    ensures moves { result ≡ tints_outside t values.old }
{
    let moves = is_moving(values, t);
    run_at(words, at, n, t, count, values);
    moves
}
