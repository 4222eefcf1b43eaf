// The lines of a listing.
ghost use Rattle.std.specs.Prelude.{◌≡◌, ◌+◌, ◌*◌, ◌/◌, ◌≤◌, ◌++◌, length};
ghost use Rattle.fixed.specs.Bytes.{blocks};
ghost use Rattle.fixed.specs.Refusals.{number_of};
ghost use Rattle.space.specs.Numbers.{kind_numbered};
ghost use Rattle.space.specs.Pages.{space_at};
ghost use Rattle.digits.specs.Texts.{text, over};
ghost use Rattle.lines.specs.Listing.{is_space, family_of, line_of, line_at, lines_of, accepted_text, refused_text, listing, longest};
ghost use Rattle.digits.specs.Puts.{Put};

use digits::{put_column, put_number, put_text};
use fixed::Refused;
use page::validate;
use space::{components, kind};
use tables::words;

// Whether a block of this kind is a space: neither free, nor of a palette or a program.
#[tactic(auto, unfolding(crate::specs::Listing::is_space))]
fn is_space(k: u32) -> bool
    ensures { result ≡ is_space k }
{
    matches!(k, 1..=5 | 8)
}

// Puts the family of a space, by its kind, and a space after it.
// Kept: (out, at), as `Put` of digits says what stands where: a writer would have to say it of both.
fn put_family(out: &mut [u8], at: usize, k: u32) -> usize
    requires { at + 11 ≤ longest }
    ensures { Put 11 out.old at (family_of k ++ text " ") out.new result }
{
    match k {
        1 => put_text(out, at, b"CalGray "),
        2 => put_text(out, at, b"CalRGB "),
        3 => put_text(out, at, b"Lab "),
        4 => put_text(out, at, b"Indexed "),
        8 => put_text(out, at, b"DeviceN "),
        _ => put_text(out, at, b"Separation "),
    }
}

// Puts the line of block i: number, family, components and recipe words of its space.
fn put_line(out: &mut [u8], at: usize, page: &[u8], i: u32) -> usize
    requires { at + 44 ≤ longest }
    ensures { Put 44 out.old at (line_of i (kind_numbered page.now i) (space_at page.now i)) out.new result }
{
    let a = put_column(out, at, i, b' ');
    let b = put_family(out, a, kind(page, i));
    let c = put_column(out, b, components(page, i), b' ');
    put_column(out, c, words(page, i), b'\n')
}

// Puts the line of block i where it is a space, and else nothing.
fn put_block(out: &mut [u8], at: usize, page: &[u8], i: u32) -> usize
    requires { at + 44 ≤ longest }
    ensures { Put 44 out.old at (line_at page.now i) out.new result }
{
    if is_space(kind(page, i)) {
        return put_line(out, at, page, i);
    }
    at
}

// Puts the lines of the first n blocks.
fn put_lines(out: &mut [u8], at: usize, page: &[u8], n: u32) -> usize
    requires { at + 44 * n ≤ longest }
    ensures { Put (44 * n) out.old at (lines_of page.now n) out.new result }
{
    let mut next = at;
    for i in 0..n {
        next = put_block(out, next, page, i);
    }
    next
}

// Puts the listing of a page that is accepted.
fn put_accepted(out: &mut [u8], page: &[u8]) -> usize
    requires { length page.now / 512 ≤ blocks }
    ensures { Put longest out.old 0 (accepted_text page.now) out.new result }
{
    let n = (page.len() / 512) as u32;
    let a = put_text(out, 0, b"blocks ");
    let b = put_column(out, a, n, b'\n');
    put_lines(out, b, page, n)
}

// Puts the line of a page that is refused.
fn put_refused(out: &mut [u8], refused: Refused) -> usize
    ensures { Put longest out.old 0 (refused_text (number_of refused.refusal) refused.block) out.new result }
{
    let a = put_text(out, 0, b"refused ");
    let b = put_number(out, a, refused.refusal.number());
    let c = put_text(out, b, b" block ");
    put_column(out, c, refused.block, b'\n')
}

// Puts the listing of a page at the start of `out`, and answers how many bytes it has. Where they are more than `out` has, the first of them are put; what the
// listing does not reach stays as it was.
pub fn list(page: &[u8], out: &mut [u8]) -> usize
    ensures size { result ≡ length (listing page.now) }
    ensures put { out.new ≡ over (listing page.now) out.old }
    ensures short { result ≤ longest }
{
    match validate(page) {
        Ok(()) => put_accepted(out, page),
        Err(refused) => put_refused(out, refused),
    }
}
