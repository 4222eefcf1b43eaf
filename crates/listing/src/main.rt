// The listing program: reads a page from standard input and prints its count of blocks, then number, family, components and recipe words of each space. A
// refused page prints one line.
//
//     blocks 1
//     0 CalGray 1 9
#![tactic(auto)]

use std::io::Result;

// A byte more than the longest page, so that a longer input is refused and not cut.
const READ: usize = 512 * (fixed::BLOCKS as usize) + 1;

fn main(rt: HostRuntime) -> Result<()> {
    let mut read = [0u8; READ];
    let n = text::read_full(&mut rt.stdin(), &mut read)?;
    // room for the longest listing, which has a line for each of the most blocks
    let mut room = [0u8; lines::LONGEST];
    let k = lines::list(&read[..n], &mut room);
    rt.write_all(&room[..k])
}
