// The three operations, over seven lists that the caller lends. Of other lengths than these they are refused with 10, and nothing is altered.
ghost use Rattle.std.specs.Prelude.{◌≡◌, List, ℕ, length};
ghost use Rattle.fixed.specs.Refusals.{refused_with};
ghost use Rattle.keys.specs.Entries.{defaults};
ghost use Rattle.reader.specs.Texts.{room_after, start};
ghost use Rattle.judging.specs.Replies.{replied};
ghost use Rattle.designer.specs.State.{progress_at};
ghost use Rattle.designer.specs.Lent.{memory, sized, lent_fault, view_of, begun_view, part_view, end_view, answer_of};

use crate::ending::conclude;
use crate::reading::{finish, read};
use fixed::Refusal;
use judging::TextRefusal;
use keys::entries;
use lexer::{Lexer, Mode};
use reader::{Entry, Head, Inner, Want, frames};
use states::{State, load, save};

// The lengths of the lists: the state's words, the numbers of a dictionary, the bytes of a name or string, the spaces that may be returned to,
// the bytes of their names, and the blocks and their bytes.
pub const WORDS: usize = states::WORDS;

pub const VALUES: usize = entries::VALUES;

pub const WORD_BYTES: usize = lexer::LONGEST;

pub const SPACES: usize = frames::RING as usize;

pub const NAME_BYTES: usize = 128 * SPACES;

pub const BLOCKS: usize = fixed::BLOCKS as usize;

pub const BLOCK_BYTES: usize = 512 * BLOCKS;

// Whether lists of these lengths are lent.
#[tactic(auto, unfolding(crate::specs::Lent::sized))]
fn is_sized(
    words: usize,
    values: usize,
    word: usize,
    marks: usize,
    names: usize,
    opens: usize,
    blocks: usize,
) -> bool
    ensures { result ≡ sized words values word marks names opens blocks }
{
    words == WORDS
        && values == VALUES
        && word == WORD_BYTES
        && marks == SPACES
        && names == NAME_BYTES
        && opens == BLOCKS
        && blocks == BLOCK_BYTES
}

// Nothing is read yet.
#[tactic(auto, unfolding(crate::specs::State::progress_at, reader::specs::Texts::begun, lexer::specs::Scans::start, reader::specs::Kept::frames_at))]
fn fresh() -> State
    ensures { (word marks names opens page : List ℕ) → progress_at result defaults word marks names opens page ≡ start }
{
    State {
        lexer: Lexer {
            mode: Mode::Gap,
            number: lexical::no_number(),
            size: 0,
            seen: 0,
            first: 0,
        },
        head: Head {
            want: Want::Top,
            kind: 0,
            entry: Entry {
                key: 0,
                index: 0,
                mask: 0,
                exponent: 1,
            },
            inner: Inner {
                count: 0,
                code: 0,
                hival: 0,
            },
            next: 0,
            top: 0,
            deep: 0,
        },
        refusal: 0,
        place: 0,
    }
}

// Begins a text. Lists of other lengths are refused with 10.
// Kept: seven lists as parameters, for callers lend them of any length, and other lengths are refused (FORMAT.md, Designers' texts).
pub fn begin(
    words: &mut [u64],
    values: &mut [i32],
    word: &[u8],
    marks: &[u32],
    names: &[u8],
    opens: &[u32],
    blocks: &[u8],
) -> Result<(), Refusal>
    ensures replies { refused_with result ≡ lent_fault (memory words.old values.old word.now marks.now names.now opens.now blocks.now) }
    ensures leaves { view_of (memory words.new values.new word.now marks.now names.now opens.now blocks.now) ≡ begun_view (view_of (memory words.old values.old word.now marks.now names.now opens.now blocks.now)) }
{
    if !is_sized(
        words.len(),
        values.len(),
        word.len(),
        marks.len(),
        names.len(),
        opens.len(),
        blocks.len(),
    ) {
        return Err(Refusal::Room);
    }
    entries::reset(values);
    save(words, fresh());
    Ok(())
}

// Reads a part of the text, of any length; room is the length of the room that the end will be lent. Lists of other lengths are refused with 10.
pub fn part(
    text: &[u8],
    room: usize,
    words: &mut [u64],
    values: &mut [i32],
    word: &mut [u8],
    marks: &mut [u32],
    names: &mut [u8],
    opens: &mut [u32],
    blocks: &mut [u8],
) -> Result<(), Refusal>
    ensures replies { refused_with result ≡ lent_fault (memory words.old values.old word.old marks.old names.old opens.old blocks.old) }
    ensures leaves { view_of (memory words.new values.new word.new marks.new names.new opens.new blocks.new) ≡ part_view room (view_of (memory words.old values.old word.old marks.old names.old opens.old blocks.old)) text.now }
{
    if !is_sized(
        words.len(),
        values.len(),
        word.len(),
        marks.len(),
        names.len(),
        opens.len(),
        blocks.len(),
    ) {
        return Err(Refusal::Room);
    }
    let s = load(words);
    let t = read(s, text, room, values, word, marks, names, opens, blocks);
    save(words, t);
    Ok(())
}

// Ends the text, and says how many blocks its page has: only where all of it is accepted are its blocks written to the room, and nothing after them.
pub fn end(
    room: &mut [u8],
    words: &mut [u64],
    values: &mut [i32],
    word: &[u8],
    marks: &mut [u32],
    names: &mut [u8],
    opens: &mut [u32],
    blocks: &mut [u8],
) -> Result<u32, TextRefusal>
    ensures replies { result ≡ replied (answer_of (length room.old) (view_of (memory words.old values.old word.now marks.old names.old opens.old blocks.old))) }
    ensures writes { room.new ≡ room_after (answer_of (length room.old) (view_of (memory words.old values.old word.now marks.old names.old opens.old blocks.old))) room.old }
    ensures leaves { view_of (memory words.new values.new word.now marks.new names.new opens.new blocks.new) ≡ end_view (length room.old) (view_of (memory words.old values.old word.now marks.old names.old opens.old blocks.old)) }
{
    if !is_sized(
        words.len(),
        values.len(),
        word.len(),
        marks.len(),
        names.len(),
        opens.len(),
        blocks.len(),
    ) {
        let number = Refusal::Room.number();
        return Err(TextRefusal { number, at: 0 });
    }
    let s = load(words);
    let t = finish(s, room.len(), values, word, marks, names, opens, blocks);
    save(words, t);
    conclude(t, room, opens, blocks)
}
