// What a body refers to: how many components the space within has, and whether the reference is permitted.
ghost use Rattle.std.specs.Prelude.{◌≡◌, List, ℕ, ◌≤◌};
ghost use Rattle.fixed.specs.Values.{places};
ghost use Rattle.runs.specs.Runs.{permitted, within};

use record::Body;
use space::{count, plain_at, tinted_at};

// How many components the space has that a body refers to: 0 where it refers to none, or to one that it may not.
// Kept: 0 as in the definition `within`; `permits` and the length of a palette go by it.
#[tactic(auto, unfolding(crate::specs::Runs::within))]
pub fn count_within(page: &[u8], y: Body) -> u32
    ensures is { result ≡ within page.now y }
    ensures small { result ≤ places }
{
    match y {
        Body::Indexed { base, .. } => count(tinted_at(page, base)),
        Body::Separation(p) => count(plain_at(page, p.alternate)),
        Body::DeviceN { alternate, .. } => count(plain_at(page, alternate)),
        _ => 0,
    }
}

// Whether the reference of a body, if it has one, is permitted, m being the components of the space within: else it is refused with 6.
#[tactic(auto, unfolding(crate::specs::Runs::permitted))]
pub fn permits(y: Body, m: u32) -> bool
    ensures { (page : List ℕ) → m ≡ within page y → result ≡ permitted page y }
{
    match y {
        Body::Indexed { .. } | Body::Separation(_) | Body::DeviceN { .. } => 0 < m,
        _ => true,
    }
}
