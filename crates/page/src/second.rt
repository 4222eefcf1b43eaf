// The second pass: 4, 5, 6, those of a program, and 7, block by block.
ghost use Rattle.std.specs.Prelude.{◌≡◌, ◌<◌, ◌≤◌};
ghost use Rattle.fixed.specs.Bytes.{blocks};
ghost use Rattle.fixed.specs.Loops.{first_from};
ghost use Rattle.fixed.specs.Refusals.{refused_with};
ghost use Rattle.fixed.specs.Values.{places};
ghost use Rattle.runs.specs.Runs.{within};
ghost use Rattle.page.specs.Outcomes.{accepted, refused, meaning};
ghost use Rattle.page.specs.Validation.{fault_claimed, fault_two};

use fixed::{Refusal, Refused};
use record::{Body, body_at};
use rules::{is_lawful_at, is_supported};
use runs::{claimed_after, count_within, is_well_filled, permits, program_fault};

// The first refusal of 4, 5, 6, those of a program, and 7 that block i meets: y is its body, and m the components of the space within.
#[tactic(auto, unfolding(crate::specs::Validation::fault_claimed))]
fn fault_claimed(page: &[u8], i: u32, claimed: u32, y: Body, m: u32) -> Result<(), Refusal>
    requires { (i < blocks) × (m ≤ places) × (m ≡ within page.now y) }
    ensures { refused_with result ≡ fault_claimed page.now i claimed y }
{
    if !is_lawful_at(page, i, y) {
        return Err(Refusal::ClauseRule);
    }
    if !is_supported(y) {
        return Err(Refusal::HouseLimit);
    }
    if !permits(y, m) {
        return Err(Refusal::Reference);
    }
    program_fault(page, i, y, m)?;
    if !is_well_filled(page, i, claimed, y, m) {
        return Err(Refusal::RunOrSpareEntry);
    }
    Ok(())
}

// The second pass over n blocks.
pub fn pass_two(page: &[u8], n: u32) -> Result<(), Refused>
    requires { n ≤ blocks }
    ensures { meaning result ≡ first_from accepted refused (fault_two page.now) 0 n }
{
    let mut claimed = 0;
    for i in 0..n {
        let y = body_at(page, i);
        let m = count_within(page, y);
        if let Err(refusal) = fault_claimed(page, i, claimed, y, m) {
            return Err(refusal.of_block(i));
        }
        claimed = claimed_after(page, i, y, m, claimed);
    }
    Ok(())
}
