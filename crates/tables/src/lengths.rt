// How many words a space's recipe has.
ghost use Rattle.std.specs.Prelude.{◌≡◌, ◌+◌, ◌*◌, ◌≤◌, length};
ghost use Rattle.form.specs.Steps.{head_words};
ghost use Rattle.space.specs.Spaces.{words_of};
ghost use Rattle.space.specs.Pages.{entries, space_at};
ghost use Rattle.space.specs.Levels.{plain_in, no_ranges, space_in, rank_in};

use calculator::{program_run, run_words};
use cie::Closing;
use form::Tints;
use space::{Level, count, level_at, plain_at, tinted_at};

// The words of a plain space's recipe; 1, the count alone, where there is no space.
fn plain_words(c: Closing) -> u32
    ensures is { result ≡ words_of (plain_in c no_ranges) }
    ensures small { result ≤ 26 }
{
    match c {
        Closing::Nothing => 1,
        Closing::NoMark => 2,
        Closing::Gray | Closing::EveryInk => 6,
        Closing::CalGray(_) => 9,
        Closing::Rgb => 14,
        Closing::Lab(_) => 16,
        Closing::Cmyk => 18,
        Closing::CalRgb(_) => 26,
    }
}

// How many words stand before a program's flat form: 3, or 4 where they say how many values it takes.
pub fn head_size(i: Tints) -> u32
    ensures is { result ≡ length (head_words i) + 2 }
    ensures small { result ≤ 4 }
{
    match i {
        Tints::One => 3,
        Tints::Inks(_) => 4,
    }
}

// The words of the recipe of a level's space: those of the space within, and what an Indexed, a Separation or a DeviceN adds.
pub fn words_in(page: &[u8], l: Level) -> u32
    ensures is { result ≡ words_of (space_in page.now l) }
    ensures small { result ≤ (entries + 26) * (rank_in l + 1) }
{
    match l {
        Level::Plain(c, _) => plain_words(c),
        Level::Blank(_) => 2,
        Level::Separation(p) => {
            let s = plain_at(page, p.alternate);
            3 + 2 * count(s) + words_in(page, s)
        }
        Level::Program {
            block,
            alternate,
            tints,
        } => {
            let s = plain_at(page, alternate);
            head_size(tints)
                + run_words(page, block, program_run(page, block)) as u32
                + words_in(page, s)
        }
        Level::Indexed { base, hival, .. } => {
            let s = tinted_at(page, base);
            3 + count(s) * (hival as u32 + 1) + words_in(page, s)
        }
    }
}

// The words of the recipe of the space at a number.
pub fn words(page: &[u8], n: u32) -> u32
    ensures is { result ≡ words_of (space_at page.now n) }
    ensures small { result ≤ (entries + 26) * 3 }
{
    words_in(page, level_at(page, n))
}
