// The reading program: reads a designer's text from standard input and writes its page to standard output. Of a text that is refused it writes one line to
// standard error.
//
//     refused 12 at 40
#![tactic(auto)]

use judging::TextRefusal;
use std::io::{Read, Result};

// The parts that are read at the most: one byte more than a text may have is refused.
const PARTS: usize = 65537;

// The bytes of a part.
const PART_BYTES: usize = 65536;

// Reads the text in parts of 65,536 bytes.
fn read_text(
    input: &mut impl Read,
    words: &mut [u64],
    values: &mut [i32],
    word: &mut [u8],
    marks: &mut [u32],
    names: &mut [u8],
    opens: &mut [u32],
    blocks: &mut [u8],
) -> Result<()> {
    for _ in 0..PARTS {
        let mut read = [0u8; PART_BYTES];
        let n = text::read_full(input, &mut read)?;
        let room = designer::BLOCK_BYTES;
        let _ = designer::part(
            &read[..n],
            room,
            words,
            values,
            word,
            marks,
            names,
            opens,
            blocks,
        );
        if n < PART_BYTES {
            break;
        }
    }
    Ok(())
}

fn write_refusal(err: &impl Print, number: u32, at: u32) -> Result<()> {
    let mut line = [0u8; 64];
    let k = digits::refused_at(number, at, &mut line);
    err.write_all(&line[..k])
}

fn write_page(rt: &impl Print, room: &[u8], blocks: u32) -> Result<()> {
    match room.get(..512 * blocks as usize) {
        Some(page) => rt.write_all(page),
        None => Ok(()),
    }
}

fn main(rt: HostRuntime) -> Result<()> {
    let mut words = [0u64; designer::WORDS];
    let mut values = [0i32; designer::VALUES];
    let mut word = [0u8; designer::WORD_BYTES];
    let mut marks = [0u32; designer::SPACES];
    let mut names = [0u8; designer::NAME_BYTES];
    let mut opens = [0u32; designer::BLOCKS];
    let mut blocks = [0u8; designer::BLOCK_BYTES];
    let mut room = [0u8; designer::BLOCK_BYTES];
    let _ = designer::begin(
        &mut words,
        &mut values,
        &word,
        &marks,
        &names,
        &opens,
        &blocks,
    );
    read_text(
        &mut rt.stdin(),
        &mut words,
        &mut values,
        &mut word,
        &mut marks,
        &mut names,
        &mut opens,
        &mut blocks,
    )?;
    let r = designer::end(
        &mut room,
        &mut words,
        &mut values,
        &word,
        &mut marks,
        &mut names,
        &mut opens,
        &mut blocks,
    );
    match r {
        Ok(n) => write_page(&rt, &room, n),
        Err(TextRefusal { number, at }) => write_refusal(&rt.stderr(), number, at),
    }
}
