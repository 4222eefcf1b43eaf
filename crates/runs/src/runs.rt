// The blocks after a block: the run of a palette or of a program, what is spare, and how many blocks are claimed.
ghost use Rattle.std.specs.Prelude.{◌≡◌, List, ℕ, ◌<◌, ◌≤◌, cond};
ghost use Rattle.fixed.specs.Bytes.{blocks};
ghost use Rattle.fixed.specs.Refusals.{refused_with};
ghost use Rattle.fixed.specs.Values.{places};
ghost use Rattle.form.specs.Steps.{taken_by};
ghost use Rattle.runs.specs.Runs.{within, palette_size, run_length, palettes, run_filled, programmed, tints_of, run_fault, program_fault, used_entries, unused_zero, palette_claimed, claimed_after, well_filled};
ghost use Rattle.space.specs.Pages.{entries};

use calculator::{is_filled_run, judge_run, program_run};
use fixed::Refusal;
use form::nearest_count;
use record::{Body, ROOM, Separation, is_palette};
use rules::{entries_end, palette_ends};

// The bytes of the palette of an Indexed block, over a base of m components.
fn palette_size(m: u32, hival: u16) -> u32
    requires { m ≤ places }
    ensures is { result ≡ palette_size m hival }
    ensures small { result ≤ entries }
{
    m * (hival as u32 + 1)
}

// How few blocks hold so many bytes.
fn run_length(size: u32) -> u32
    requires { size ≤ entries }
    ensures { result ≡ run_length size }
{
    size.div_ceil(ROOM)
}

// Whether the blocks from `from` to below `to` are all palette blocks.
fn all_palettes(page: &[u8], from: u32, to: u32) -> bool
    ensures { result ≡ palettes page.now from to }
{
    for k in from..to {
        if !is_palette(page, k) {
            return false;
        }
    }
    true
}

// Whether the palette of so many bytes stands straight after block i, with nothing after it in its last block.
fn run_filled(page: &[u8], i: u32, size: u32) -> bool
    requires { (i < blocks) × (size ≤ entries) }
    ensures { result ≡ run_filled page.now i size }
{
    let n = run_length(size);
    let used = size - ROOM * n.saturating_sub(1);
    all_palettes(page, i + 1, i + 1 + n) && palette_ends(page, i + n, used)
}

// How many values the program of a body takes, where it has one: as many as it has names, or one.
fn taken_of(y: Body) -> Option<u32>
    ensures { result ≡ cond (programmed y) (Some (taken_by (tints_of y))) None }
{
    match y {
        Body::Separation(p) if p.exponent == 0 => Some(1),
        Body::DeviceN { count, .. } => Some(nearest_count(count as u32)),
        _ => None,
    }
}

// What the program after block i, which takes t values, over an alternate of m components, is refused with: 7 for its run, then 16 and 17 for its text.
#[tactic(auto, unfolding(crate::specs::Runs::run_fault))]
fn run_fault(page: &[u8], i: u32, t: u32, m: u32) -> Result<(), Refusal>
    requires { i < blocks }
    ensures { refused_with result ≡ run_fault page.now i t m }
{
    let n = i as u16;
    let run = program_run(page, n);
    if !is_filled_run(page, n, run) {
        return Err(Refusal::RunOrSpareEntry);
    }
    judge_run(page, n, run, t as usize, m as usize)
}

// The same of block i, whose body is y, where it has a program; where it has none nothing is refused.
#[tactic(auto, unfolding(crate::specs::Runs::program_fault))]
pub fn program_fault(page: &[u8], i: u32, y: Body, m: u32) -> Result<(), Refusal>
    requires { (i < blocks) × (m ≡ within page.now y) }
    ensures { refused_with result ≡ program_fault page.now i y }
{
    match taken_of(y) {
        Some(t) => run_fault(page, i, t, m),
        None => Ok(()),
    }
}

// How many entries of C0 and C1 are used, over an alternate of m components: none where a program stands for them.
#[tactic(auto, unfolding(crate::specs::Runs::used_entries))]
fn used_entries(p: Separation, m: u32) -> u32
    ensures { result ≡ used_entries p m }
{
    if p.exponent == 0 { 0 } else { m }
}

// Whether C0 and C1 of a Separation have nothing past m entries.
#[tactic(auto, unfolding(crate::specs::Runs::unused_zero))]
fn unused_zero(p: Separation, m: u32) -> bool
    ensures { result ≡ unused_zero p m }
{
    entries_end(p.c0, m) && entries_end(p.c1, m)
}

// The blocks that are claimed as palette after one whose body is y, over a space of m components.
#[tactic(auto, unfolding(crate::specs::Runs::palette_claimed))]
fn palette_claimed(y: Body, m: u32, claimed: u32) -> u32
    requires { m ≤ places }
    ensures { (page : List ℕ) → m ≡ within page y → result ≡ palette_claimed page y claimed }
{
    match y {
        Body::Indexed { hival, .. } => run_length(palette_size(m, hival)),
        _ => claimed.saturating_sub(1),
    }
}

// The blocks that are claimed as palette or as program after block i, whose body is y, over a space of m components.
#[tactic(auto, unfolding(crate::specs::Runs::claimed_after))]
pub fn claimed_after(page: &[u8], i: u32, y: Body, m: u32, claimed: u32) -> u32
    requires { (i < blocks) × (m ≤ places) × (m ≡ within page.now y) }
    ensures { result ≡ claimed_after page.now i y claimed }
{
    if taken_of(y).is_some() {
        return program_run(page, i as u16);
    }
    palette_claimed(y, m, claimed)
}

// Whether what a body has after it and past its counts is in order, over a space of m components, with so many blocks claimed from block i on: else it is
// refused with 7.
#[tactic(auto, unfolding(crate::specs::Runs::well_filled))]
pub fn is_well_filled(page: &[u8], i: u32, claimed: u32, y: Body, m: u32) -> bool
    requires { (i < blocks) × (m ≤ places) × (m ≡ within page.now y) }
    ensures { result ≡ well_filled page.now i claimed y }
{
    match y {
        Body::Indexed { hival, .. } => run_filled(page, i, palette_size(m, hival)),
        Body::Separation(p) => unused_zero(p, used_entries(p, m)),
        Body::Palette | Body::Program => 0 < claimed,
        _ => true,
    }
}
