// What the operations come to, as replies.
ghost use Rattle.std.specs.Prelude.{◌≡◌, ◌≤◌, ◌<◌, Err};
ghost use Rattle.fixed.specs.Bytes.{blocks};
ghost use Rattle.fixed.specs.Refusals.{number_of, refused_with};
ghost use Rattle.block.specs.Single.{meaning as block_outcome};
ghost use Rattle.ink_names.specs.Replies.{said_of, block_in, meaning as asked};
ghost use Rattle.page.specs.Outcomes.{meaning as judged};
ghost use Rattle.recipe.specs.SpaceWrites.{meaning as wrote};
ghost use Rattle.c_layout.specs.Replies.{verdict_of, wrote_of, in_halves};
ghost use Rattle.c_layout.specs.Inks.{page_code, on_page, ink_of};
ghost use Rattle.c_records.specs.Records.{done_of};

use fixed::{Refusal, Refused};
use ink_names::{AskError, Side};
use sktelbaan_runner::halves;

// A refusal and the block that it is about, as a reply.
fn refused(e: Refused) -> u64
    ensures { result ≡ in_halves (number_of e.refusal) e.block }
{
    halves(e.refusal.number(), e.block)
}

// What validating comes to, as a reply.
pub fn verdict(v: Result<(), Refused>) -> u64
    ensures { result ≡ verdict_of (judged v) }
{
    match v {
        Ok(()) => halves(0, 0),
        Err(e) => refused(e),
    }
}

// What writing a recipe comes to, as a reply.
pub fn count(w: Result<u32, Refused>) -> u64
    ensures { result ≡ wrote_of (wrote w) }
{
    match w {
        Ok(n) => halves(0, n),
        Err(e) => refused(e),
    }
}

// What gives nothing comes to, as a reply: nothing, or the refusal. Writing a block is one such.
pub fn done(t: Result<(), Refusal>) -> u64
    ensures plain { result ≡ in_halves (refused_with t) 0 }
    ensures of_block { result ≡ done_of (block_outcome t) }
{
    match t {
        Ok(()) => halves(0, 0),
        Err(refusal) => halves(refusal.number(), 0),
    }
}

// The number of a page, 0 of neither.
fn page_code(page: Option<Side>) -> u32
    ensures is { result ≡ page_code (said_of page) }
    ensures small { result ≤ 2 }
{
    match page {
        None => 0,
        Some(Side::Job) => 1,
        Some(Side::House) => 2,
    }
}

// A page, none where it is neither, and a block of it, as the high half of a reply.
pub fn on_page(page: Option<Side>, block: u32) -> u32
    requires { block < blocks }
    ensures { result ≡ on_page (said_of page) block }
{
    page_code(page) * 65536 + block
}

// Why no ink was found, as a reply.
pub fn no_ink(error: AskError) -> u64
    requires { block_in (asked (Err error)) < blocks }
    ensures { result ≡ ink_of (asked (Err error)) }
{
    match error {
        AskError::JobRefused(e) => halves(e.refusal.number(), on_page(Some(Side::Job), e.block)),
        AskError::HouseRefused(e) => halves(
            e.refusal.number(),
            on_page(Some(Side::House), e.block),
        ),
        AskError::NoSuchInk => halves(Refusal::NoSuchSpace.number(), on_page(None, 0)),
    }
}
