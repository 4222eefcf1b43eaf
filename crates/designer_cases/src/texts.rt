// Cases of designers' texts, read in parts.

use judging::TextRefusal;
use octets::of_signed;
use small_cases::is_kept;
use std::io;
use text::{say, say_dotted, say_size};

// The most room that a case lends: twice what the most blocks need.
const ROOM: usize = 2 * designer::BLOCK_BYTES;

// Reads a text in parts of this size; all at once where parts have no size.
fn read_parts(
    text: &[u8],
    size: usize,
    room: usize,
    words: &mut [u64],
    values: &mut [i32],
    word: &mut [u8],
    marks: &mut [u32],
    names: &mut [u8],
    opens: &mut [u32],
    blocks: &mut [u8],
) {
    let part_size = if size == 0 { text.len().max(1) } else { size };
    for part in text.chunks(part_size) {
        let _ = designer::part(part, room, words, values, word, marks, names, opens, blocks);
    }
}

fn say_page(rt: &impl Print, n: u32, room: &[u8]) -> io::Result<()> {
    let size = 512 * (n as usize);
    if room.len() < size {
        return Ok(());
    }
    say(rt, b"page ")?;
    say_size(rt, n)?;
    say(rt, b" x")?;
    say_dotted(rt, &room[..size])?;
    if is_kept(&room[size..]) {
        say(rt, b" kept")?;
    }
    Ok(())
}

fn say_refused(rt: &impl Print, refusal: TextRefusal, room: &[u8]) -> io::Result<()> {
    print!(rt; "{refusal}")?;
    if is_kept(room) {
        say(rt, b" kept")?;
    }
    Ok(())
}

fn say_reply(rt: &impl Print, r: Result<u32, TextRefusal>, room: &[u8]) -> io::Result<()> {
    match r {
        Ok(n) => say_page(rt, n, room),
        Err(refusal) => say_refused(rt, refusal, room),
    }
}

// Ends a text twice, and says what the second end replies, and where the first replied otherwise.
fn end_twice(
    rt: &impl Print,
    room: &mut [u8],
    words: &mut [u64],
    values: &mut [i32],
    word: &[u8],
    marks: &mut [u32],
    names: &mut [u8],
    opens: &mut [u32],
    blocks: &mut [u8],
) -> io::Result<()> {
    let first = designer::end(room, words, values, word, marks, names, opens, blocks);
    let second = designer::end(room, words, values, word, marks, names, opens, blocks);
    say_reply(rt, second, room)?;
    if first != second {
        say(rt, b" not as before")?;
    }
    Ok(())
}

// Reads a text into room that holds AA, over memory that nobody has cleared.
fn read_into(rt: &impl Print, room: &mut [u8], size: usize, text: &[u8]) -> io::Result<()> {
    let mut words = [7u64; designer::WORDS];
    let mut values = [7i32; designer::VALUES];
    let mut word = [0xaau8; designer::WORD_BYTES];
    let mut marks = [7u32; designer::SPACES];
    let mut names = [0xaau8; designer::NAME_BYTES];
    let mut opens = [7u32; designer::BLOCKS];
    let mut blocks = [0xaau8; designer::BLOCK_BYTES];
    let _ = designer::begin(
        &mut words,
        &mut values,
        &word,
        &marks,
        &names,
        &opens,
        &blocks,
    );
    read_parts(
        text,
        size,
        room.len(),
        &mut words,
        &mut values,
        &mut word,
        &mut marks,
        &mut names,
        &mut opens,
        &mut blocks,
    );
    end_twice(
        rt,
        room,
        &mut words,
        &mut values,
        &word,
        &mut marks,
        &mut names,
        &mut opens,
        &mut blocks,
    )
}

// Operation 36: a text in parts, with its room and the size of a part before it.
pub fn text_case(rt: &impl Print, v: [i32; 24], text: &[u8]) -> io::Result<()> {
    let mut room = [0xaau8; ROOM];
    let n = of_signed(v[1]) as usize;
    if n <= ROOM {
        read_into(rt, &mut room[..n], of_signed(v[2]) as usize, text)?;
    }
    Ok(())
}
