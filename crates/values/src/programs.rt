// What a Separation or a DeviceN with a calculator program makes of its components.
ghost use Rattle.std.specs.Prelude.{◌≡◌};
ghost use Rattle.form.specs.Steps.{taken_by, program_step};
ghost use Rattle.calculator.specs.Calculator.{code_after};

use calculator::{program_run, step_run};
use fixed::Colour;
use form::{Tints, taken};

// What the program after block n makes of its tints: a colour of the alternate space, of m components, not limited yet.
#[tactic(auto, unfolding(calculator::specs::Calculator::code_after))]
pub fn calculate(page: &[u8], n: u16, tints: Tints, m: u32, c: Colour) -> Colour
    ensures { result ≡ program_step (taken_by tints) m (code_after page.now n) c }
{
    let t = taken(tints);
    step_run(page, n, program_run(page, n), t as usize, m as usize, c)
}
