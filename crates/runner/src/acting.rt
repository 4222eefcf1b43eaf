// The colour after a step of a recipe.
ghost use Rattle.std.specs.Prelude.{◌≡◌};
ghost use Rattle.steps.specs.Ranges.{Bounded};
ghost use Rattle.runner.specs.Runs.{stepped};

use acts::{limit_step, program_step, row_step, tint_step};
use fixed::Colour;
use steps::Step;

// The colour after a step; a closing step leaves it.
pub fn act(l: &[i32], c: Colour, s: Step) -> Colour
    requires { Bounded s }
    ensures { result ≡ stepped l.now c s }
{
    match s {
        Step::Limit(k, lo, hi) => limit_step(k, lo, hi, c),
        Step::Row(m, h) => row_step(l, m, h, c),
        Step::Tint(e, m) => tint_step(l, e, m, c),
        Step::Program(t, m, at, n) => program_step(l, t, m, at, n, c),
        Step::Close(_) => c,
    }
}
