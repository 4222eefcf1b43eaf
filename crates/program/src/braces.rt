// Pairs of braces, and if and ifelse after them.
ghost use Rattle.std.specs.Prelude.{◌≡◌, ◌≤◌, ◌+◌, ◌-◌, ◌*◌, pos, set, length};
ghost use Rattle.symbols.specs.Tokens.{opens, closes};
ghost use Rattle.program.specs.Kept.{held_by, count_of, keeps, Room, Grown};
ghost use Rattle.program.specs.Parse.{Held as Numbers, count_z};
ghost use Rattle.program.specs.Words.{mark0, mark1, token_w};

use crate::counts::flush;
use crate::state::{Held, Outer, Outers, PLAIN, State, Waiting};
use crate::words::Words;

// The most pairs in one another inside the outer one.
const DEEPEST: usize = 7;

// The first of a pair or the only one.
#[tactic(auto, unfolding(crate::specs::Words::token_w))]
pub fn open_first(words: &mut Words, outers: &mut Outers, held: Held) -> State
    requires { Room words.old (count_of held) }
    ensures is { keeps result words.new outers.new ≡ token_w count_z words.old mark0 outers.old (held_by held) opens }
    ensures grown { Grown result words.new words.old (count_of held) }
{
    if outers.len() < DEEPEST {
        flush(words, held);
        outers.push(Outer::First(words.len() as u16));
        words.put_two(5, 0);
        PLAIN
    } else {
        State::Refused
    }
}

// The second, after one whose jump stands at f.
#[tactic(auto, unfolding(crate::specs::Words::token_w))]
pub fn open_second(words: &mut Words, outers: &mut Outers, f: u16) -> State
    requires { length words.old + 2 ≤ 800 }
    ensures is { (h : Numbers) → keeps result words.new outers.new ≡ token_w count_z words.old (mark1 f) outers.old h opens }
    ensures grown { Grown result words.new words.old 0 }
{
    if outers.len() < DEEPEST {
        outers.push(Outer::Second(f, words.len() as u16));
        words.put_two(6, 0);
        PLAIN
    } else {
        State::Refused
    }
}

// The pair waits in the level outside; with none outside the program is whole.
#[tactic(auto, unfolding(crate::specs::Words::token_w))]
pub fn close(words: &mut Words, outers: &mut Outers, held: Held) -> State
    requires { Room words.old (count_of held) }
    ensures is { keeps result words.new outers.new ≡ token_w count_z words.old mark0 outers.old (held_by held) closes }
    ensures grown { Grown result words.new words.old (count_of held) }
{
    flush(words, held);
    let waiting = match outers.pop() {
        None => return State::Whole,
        Some(Outer::First(f)) => Waiting::One(f),
        Some(Outer::Second(f, g)) => Waiting::Two(f, g),
    };
    State::Within {
        waiting,
        held: Held::Nothing,
    }
}

// if: the jump of the pair that waits.
pub fn end_if(words: &mut Words, f: u16)
    ensures { words.new ≡ set words.old (f + 1) (pos (length words.old - (f + 2))) }
{
    let f = f as usize;
    let past = words.len().saturating_sub(f + 2);
    words.patch(f + 1, past as i32);
}

// ifelse: both jumps.
pub fn end_ifelse(words: &mut Words, f: u16, g: u16)
    ensures { words.new ≡ set (set words.old (f + 1) (pos (g - f))) (g + 1) (pos (length words.old - (g + 2))) }
{
    words.patch(f as usize + 1, g.saturating_sub(f) as i32);
    end_if(words, g);
}
