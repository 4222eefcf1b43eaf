// One token more.
ghost use Rattle.std.specs.Prelude.{◌≡◌};
ghost use Rattle.symbols.specs.Symbols.{token_of};
ghost use Rattle.program.specs.Kept.{held_by, held_in, count_of, keeps, Room, Grown};
ghost use Rattle.program.specs.Parse.{count_z};
ghost use Rattle.program.specs.Words.{mark0, token_w, token_k};

use crate::braces::{close, end_if, end_ifelse, open_first, open_second};
use crate::counts::{counted, number, operator, rolled};
use crate::state::{Held, Outers, PLAIN, State, Waiting};
use crate::words::Words;
use symbols::Symbol;

// A token where no pair waits.
#[tactic(auto, unfolding(crate::specs::Words::token_w))]
fn token_plain(words: &mut Words, outers: &mut Outers, held: Held, symbol: Symbol) -> State
    requires { Room words.old (count_of held) }
    ensures is { keeps result words.new outers.new ≡ token_w count_z words.old mark0 outers.old (held_by held) (token_of symbol) }
    ensures grown { Grown result words.new words.old (count_of held) }
{
    match symbol {
        Symbol::Open => open_first(words, outers, held),
        Symbol::Close => close(words, outers, held),
        Symbol::Number(z) => State::Within {
            waiting: Waiting::Nothing,
            held: number(words, held, z),
        },
        Symbol::Copy => {
            counted(words, held, 2);
            PLAIN
        }
        Symbol::Index => {
            counted(words, held, 3);
            PLAIN
        }
        Symbol::Roll => {
            rolled(words, held);
            PLAIN
        }
        Symbol::Operator(o) => {
            operator(words, held, o);
            PLAIN
        }
        Symbol::If | Symbol::IfElse | Symbol::Other => State::Refused,
    }
}

// The state after one token more.
#[tactic(auto, unfolding(crate::specs::Words::token_w, crate::specs::Words::token_k))]
pub fn token(words: &mut Words, outers: &mut Outers, state: State, symbol: Symbol) -> State
    requires { Room words.old (held_in state) }
    ensures is { keeps result words.new outers.new ≡ token_k count_z (keeps state words.old outers.old) (token_of symbol) }
    ensures grown { Grown result words.new words.old (held_in state) }
{
    match state {
        State::Within {
            waiting: Waiting::Nothing,
            held,
        } => token_plain(words, outers, held, symbol),
        State::Within {
            waiting: Waiting::One(f),
            ..
        } => match symbol {
            Symbol::Open => open_second(words, outers, f),
            Symbol::If => {
                end_if(words, f);
                PLAIN
            }
            _ => State::Refused,
        },
        State::Within {
            waiting: Waiting::Two(f, g),
            ..
        } if symbol == Symbol::IfElse => {
            end_ifelse(words, f, g);
            PLAIN
        }
        _ => State::Refused,
    }
}
