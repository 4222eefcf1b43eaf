// The first pass: 2 and 3, block by block.
ghost use Rattle.std.specs.Prelude.{◌≡◌, ◌+◌, ◌*◌, ◌≤◌, length};
ghost use Rattle.fixed.specs.Bytes.{blocks};
ghost use Rattle.fixed.specs.Loops.{first_from};
ghost use Rattle.fixed.specs.Refusals.{refused_with};
ghost use Rattle.page.specs.Outcomes.{accepted, refused, meaning};
ghost use Rattle.page.specs.Validation.{fault_one};

use fixed::{Refusal, Refused};
use record::own_at;
use rules::is_well_formed;
use sums::is_checked;

// The refusal of block i that the first pass finds.
#[tactic(auto, unfolding(crate::specs::Validation::fault_one))]
fn fault_one(page: &[u8], i: u32) -> Result<(), Refusal>
    requires { 512 * i + 512 ≤ length page.now }
    ensures { refused_with result ≡ fault_one page.now i }
{
    if !is_checked(page, i) {
        return Err(Refusal::Check);
    }
    if !is_well_formed(page, i) || own_at(page, i) as u32 != i {
        return Err(Refusal::Form);
    }
    Ok(())
}

// The first pass over n blocks.
pub fn pass_one(page: &[u8], n: u32) -> Result<(), Refused>
    requires { (n ≤ blocks) × (512 * n ≤ length page.now) }
    ensures { meaning result ≡ first_from accepted refused (fault_one page.now) 0 n }
{
    for i in 0..n {
        if let Err(refusal) = fault_one(page, i) {
            return Err(refusal.of_block(i));
        }
    }
    Ok(())
}
