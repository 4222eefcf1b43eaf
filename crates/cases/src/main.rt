// Worked cases, run: each line of standard input is a label and a case, and the same label is written with what the library replies.
//
//     LABEL: OPERATION NUMBERS [xBYTES]
//
// The numbers are decimal; the bytes are two hexadecimal digits each, or a full stop for a zero byte. The reference implementation writes the input and
// what is expected of each line.
#![tactic(auto)]

mod asking;
mod pages;
mod run;

use std::io::Result;

// A program ends: so many lines are read at the most.
const LINES: usize = 100000;

// The most bytes of a line, and of a case: those of two pages of the most blocks.
const BYTES: usize = 2 * 512 * fixed::BLOCKS as usize;

fn main(rt: HostRuntime) -> Result<()> {
    let mut read = [0u8; BYTES];
    let mut room = [0u8; BYTES];
    let mut input = rt.stdin();
    for _ in 0..LINES {
        let n = text::line_in(&mut input, &mut read)?;
        if n == 0 {
            break;
        }
        run::line(&rt, &read[..n], &mut room)?;
    }
    Ok(())
}
