// Refusals 4, 5 and 6: the rules on numbers, the house limits, and references; and the first refusal that a record meets.
ghost use Rattle.std.specs.Prelude.{◌≡◌, ◌≤◌, ◌&&◌};
ghost use Rattle.fixed.specs.Numbers.{gamma_supported};
ghost use Rattle.fixed.specs.Bytes.{block_at};
ghost use Rattle.fixed.specs.Refusals.{refused_with};
ghost use Rattle.record.specs.Reading.{names_at};
ghost use Rattle.record.specs.Rules.{white_point, black_point, ordered, lawful, name_count, lawful_in, supported, refers, fault_of};

use crate::naming::are_lawful;
use crate::shape::is_well_shaped;
use fixed::{Refusal, is_device, is_exponent, is_gamma};
use record::{Body, NUMBERS, Ranges, Record, Separation, Triple, names_at};

#[tactic(auto, unfolding(record::specs::Rules::white_point))]
fn is_white(t: Triple) -> bool
    ensures { result ≡ white_point t }
{
    0 < t.x && t.y == 1000000 && 0 < t.z
}

#[tactic(auto, unfolding(record::specs::Rules::black_point))]
fn is_black(t: Triple) -> bool
    ensures { result ≡ black_point t }
{
    0 <= t.x && 0 <= t.y && 0 <= t.z
}

#[tactic(auto, unfolding(record::specs::Rules::ordered))]
fn is_ordered(q: Ranges) -> bool
    ensures { result ≡ ordered q }
{
    q.amin <= q.amax && q.bmin <= q.bmax
}

// Whether no number of a body breaks a clause rule: else it is refused with 4.
#[tactic(auto, unfolding(record::specs::Rules::lawful))]
fn is_lawful(y: Body) -> bool
    ensures { result ≡ lawful y }
{
    match y {
        Body::CalGray(g) => is_white(g.white) && is_black(g.black) && 0 < g.gamma,
        Body::CalRgb(g) => is_white(g.white) && is_black(g.black),
        Body::Lab(g) => is_white(g.white) && is_black(g.black) && is_ordered(g.range),
        Body::Indexed { hival, .. } => hival <= 255,
        _ => true,
    }
}

fn are_gammas(t: Triple) -> bool
    ensures { result ≡ (gamma_supported t.x && (gamma_supported t.y && gamma_supported t.z)) }
{
    is_gamma(t.x) && is_gamma(t.y) && is_gamma(t.z)
}

// Whether each gamma and exponent of a body is within the house limit: else it is refused with 5.
#[tactic(auto, unfolding(record::specs::Rules::supported))]
pub fn is_supported(y: Body) -> bool
    ensures { result ≡ supported y }
{
    match y {
        Body::CalGray(g) => is_gamma(g.gamma),
        Body::CalRgb(g) => are_gammas(g.gammas),
        Body::Separation(p) => p.exponent == 0 || is_exponent(u32::from(p.exponent)),
        _ => true,
    }
}

// Whether the reference of a body, if it has one, is a device code or a number that a block can have: else it is refused with 6.
#[tactic(auto, unfolding(record::specs::Rules::refers))]
pub fn is_referring(y: Body) -> bool
    ensures { result ≡ refers y }
{
    match y {
        Body::Indexed {
            base: reference,
            ..
        }
        | Body::Separation(
            Separation {
                alternate: reference,
                ..
            },
        )
        | Body::DeviceN {
            alternate: reference,
            ..
        } => is_device(u32::from(reference)) || reference < NUMBERS,
        _ => true,
    }
}

// How many names a body has.
pub fn name_count(y: Body) -> u32
    ensures is { result ≡ name_count y }
    ensures small { result ≤ 255 }
{
    match y {
        Body::DeviceN { count, .. } => u32::from(count),
        _ => 0,
    }
}

// The same of a body whose names stand in s.
#[tactic(auto, unfolding(record::specs::Rules::lawful_in))]
fn is_lawful_in(s: &[u8], y: Body) -> bool
    ensures { result ≡ lawful_in s.now y }
{
    is_lawful(y) && are_lawful(s, name_count(y))
}

// The same of block n, whose body is y: its names are looked at where it has any.
#[tactic(auto, unfolding(record::specs::Rules::lawful_in))]
pub fn is_lawful_at(page: &[u8], n: u32, y: Body) -> bool
    ensures { result ≡ lawful_in (names_at (block_at page.now n)) y }
{
    let count = name_count(y);
    is_lawful(y) && (count == 0 || are_lawful(&names_at(page, n), count))
}

// The first refusal of 3, 4, 5, 6 that a record meets.
#[tactic(auto, unfolding(record::specs::Rules::fault_of))]
pub fn fault(r: Record) -> Result<(), Refusal>
    ensures { refused_with result ≡ fault_of r }
{
    if !is_well_shaped(r) {
        return Err(Refusal::Form);
    }
    if !is_lawful_in(&r.bytes, r.body) {
        return Err(Refusal::ClauseRule);
    }
    if !is_supported(r.body) {
        return Err(Refusal::HouseLimit);
    }
    if !is_referring(r.body) {
        return Err(Refusal::Reference);
    }
    Ok(())
}
