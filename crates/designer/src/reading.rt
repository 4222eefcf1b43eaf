// A part of the text, from token to token.
ghost use Rattle.std.specs.Prelude.{◌≡◌, List, ℕ, ℤ, length};
ghost use Rattle.fixed.specs.Refusals.{number_of};
ghost use Rattle.lexer.specs.Scans.{scan_at, going, stopped, handed, finished};
ghost use Rattle.reader.specs.Kept.{parser_at};
ghost use Rattle.reader.specs.Texts.{part_of};
ghost use Rattle.reader.specs.Tokens.{took};
ghost use Rattle.tokens.specs.Sizes.{Sizes};
ghost use Rattle.designer.specs.State.{is_complete, progress_at};

use fixed::Refusal;
use lexer::{Lexer, Met};
use reader::Head;
use states::State;

// The text is read on.
#[tactic(auto, unfolding(crate::specs::State::progress_at))]
fn keep(lexer: Lexer, head: Head) -> State
    ensures is { (values : List ℤ) (word marks names opens page : List ℕ) → progress_at result values word marks names opens page ≡ going (scan_at lexer word) (parser_at head values marks names opens page) }
    ensures stays { result.lexer ≡ lexer }
{
    State {
        lexer,
        head,
        refusal: 0,
        place: 0,
    }
}

// It is refused at a byte.
#[tactic(auto, unfolding(crate::specs::State::progress_at))]
fn stop(lexer: Lexer, head: Head, refusal: Refusal, place: u32) -> State
    ensures is { (values : List ℤ) (word marks names opens page : List ℕ) → progress_at result values word marks names opens page ≡ stopped (number_of refusal) place }
    ensures stays { result.lexer ≡ lexer }
{
    State {
        lexer,
        head,
        refusal: refusal.number(),
        place,
    }
}

// What is met is handed on.
// Kept: the lists are parameters. A struct of `&mut` would have each contract say of each list that it is the same one, of its length, and what of it stays.
#[tactic(auto, unfolding(lexer::specs::Scans::handed, lexer::specs::Scans::taken))]
pub fn hand(
    l: Lexer,
    h: Head,
    m: Met,
    room: usize,
    values: &mut [i32],
    word: &[u8],
    marks: &mut [u32],
    names: &mut [u8],
    opens: &mut [u32],
    blocks: &mut [u8],
) -> State
    requires { Sizes (length values.old) (length word.now) (length marks.old) (length names.old) (length opens.old) (length blocks.old) }
    ensures is { progress_at result values.new word.now marks.new names.new opens.new blocks.new ≡ handed (took room) (parser_at h values.old marks.old names.old opens.old blocks.old) (scan_at l word.now) m }
    ensures stays { result.lexer ≡ l }
{
    match m {
        Met::Nothing => keep(l, h),
        Met::Wrong => stop(l, h, Refusal::Syntax, l.first),
        Met::Past => stop(l, h, Refusal::Syntax, l.seen),
        Met::Complete(t) => {
            match tokens::take_token(h, l, t, room, values, word, marks, names, opens, blocks) {
                Ok(g) => keep(l, g),
                Err(refusal) => stop(l, h, refusal, l.first),
            }
        }
    }
}

fn is_complete(m: Met) -> bool
    ensures { result ≡ is_complete m }
{
    matches!(m, Met::Complete(_))
}

// A part of the text.
pub fn read(
    s: State,
    text: &[u8],
    room: usize,
    values: &mut [i32],
    word: &mut [u8],
    marks: &mut [u32],
    names: &mut [u8],
    opens: &mut [u32],
    blocks: &mut [u8],
) -> State
    requires { Sizes (length values.old) (length word.old) (length marks.old) (length names.old) (length opens.old) (length blocks.old) }
    ensures { progress_at result values.new word.new marks.new names.new opens.new blocks.new ≡ part_of room (progress_at s values.old word.old marks.old names.old opens.old blocks.old) text.now }
{
    let mut t = s;
    let mut i: usize = 0;
    // Kept: a `while`, for it counts nothing: it goes on from where the lexer stopped.
    while t.refusal == 0 {
        let f = lexer::find(t.lexer, word, text, i);
        i = f.at;
        t = hand(
            f.lexer, t.head, f.met, room, values, word, marks, names, opens, blocks,
        );
        if !is_complete(f.met) {
            return t;
        }
    }
    t
}

// The end of the text, as far as it ends a token.
pub fn finish(
    s: State,
    room: usize,
    values: &mut [i32],
    word: &[u8],
    marks: &mut [u32],
    names: &mut [u8],
    opens: &mut [u32],
    blocks: &mut [u8],
) -> State
    requires { Sizes (length values.old) (length word.now) (length marks.old) (length names.old) (length opens.old) (length blocks.old) }
    ensures { progress_at result values.new word.now marks.new names.new opens.new blocks.new ≡ finished (took room) (progress_at s values.old word.now marks.old names.old opens.old blocks.old) }
{
    if s.refusal != 0 {
        return s;
    }
    let e = lexer::finish(s.lexer);
    hand(
        e.lexer, s.head, e.met, room, values, word, marks, names, opens, blocks,
    )
}
