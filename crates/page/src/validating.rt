// The whole page.
ghost use Rattle.std.specs.Prelude.{◌≡◌};
ghost use Rattle.page.specs.Outcomes.{meaning};
ghost use Rattle.page.specs.Validation.{well_sized, validated};

use crate::first::pass_one;
use crate::second::pass_two;
use fixed::{BLOCKS, Refusal, Refused};

// Whether a page of so many bytes is 1 to `BLOCKS` blocks.
#[tactic(auto, unfolding(crate::specs::Validation::well_sized))]
fn is_well_sized(n: usize) -> bool
    ensures { result ≡ well_sized n }
{
    n % 512 == 0 && 1 <= n / 512 && n / 512 <= BLOCKS as usize
}

// Validates a page: the first refusal, in the order of the passes.
pub fn validate(page: &[u8]) -> Result<(), Refused>
    ensures { meaning result ≡ validated page.now }
{
    if !is_well_sized(page.len()) {
        return Err(Refusal::Length.of_block(0));
    }
    let n = (page.len() / 512) as u32;
    pass_one(page, n)?;
    pass_two(page, n)
}
