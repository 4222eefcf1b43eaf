// What a colour of a space on a page answers.
ghost use Rattle.std.specs.Prelude.{◌≡◌};
ghost use Rattle.cie.specs.Answers.{meaning};
ghost use Rattle.space.specs.Pages.{space_at};
ghost use Rattle.space.specs.Levels.{space_in};
ghost use Rattle.colour.specs.Colours.{valued, answered};

use cie::{Answer, Answered, close};
use fixed::{Colour, Refusal, start};
use space::{Level, count, level_at, limit_count, plain_at, plain_bounds, tinted_at};
use values::{calculate, limit_all, pick_row, tint};

// What a colour on its way answers in a level's space. It calls itself on the level within, whose rank is lower.
fn value_in(page: &[u8], l: Level, v: Colour) -> Answered
    ensures { meaning result ≡ valued (space_in page.now l) v }
{
    match l {
        Level::Plain(c, q) => {
            let u = limit_all(limit_count(c), plain_bounds(c, q), v);
            let w = u.values;
            Answered {
                answer: close(c, w[0], w[1], w[2], w[3]),
                moved: u.moved,
            }
        }
        Level::Blank(_) => Answered {
            answer: Answer::NoMark,
            moved: v.moved,
        },
        Level::Separation(p) => {
            let s = plain_at(page, p.alternate);
            value_in(page, s, tint(p, count(s), v))
        }
        Level::Program {
            block,
            alternate,
            tints,
        } => {
            let s = plain_at(page, alternate);
            value_in(page, s, calculate(page, block, tints, count(s), v))
        }
        Level::Indexed { block, base, hival } => {
            let s = tinted_at(page, base);
            value_in(page, s, pick_row(page, block, hival, s, v))
        }
    }
}

// A colour of the space at a number of a page: 8 where there is no space, then 9 for a wrong count of components.
pub fn evaluate_space(page: &[u8], n: u32, components: &[i32]) -> Answered
    ensures { meaning result ≡ answered (space_at page.now n) components.now }
{
    let l = level_at(page, n);
    let m = count(l) as usize;
    if m == 0 {
        return Refusal::NoSuchSpace.of_block(0).into();
    }
    if components.len() != m {
        return Refusal::Components.of_block(0).into();
    }
    value_in(page, l, start(components))
}
