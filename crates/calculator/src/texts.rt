// The text that lies in the blocks after a record.
ghost use Rattle.std.specs.Prelude.{◌≡◌, List, ℕ, ◌+◌, ◌≤◌, length, take};
ghost use Rattle.program.specs.Texts.{read_of};
ghost use Rattle.fixed.specs.Values.{places};
ghost use Rattle.fixed.specs.Refusals.{refused_with};
ghost use Rattle.form.specs.Steps.{program_step};
ghost use Rattle.fixed.specs.Sizes.{most_flat};
ghost use Rattle.calculator.specs.Calculator.{code_in, refusal_of, words_by, most_blocks, program_run, put_at, text_byte, text_of, run_size, run_text, filled_run};

use crate::filling::is_filled;
use crate::judging::judge;
use crate::words::{put_words, size, step};
use crate::{BLOCKS, TEXT};
use fixed::{Colour, Refusal};
use record::{ROOM, is_program, palette_at};
use std::marker::Model;

// The run of a program: how many blocks of its text stand straight after block n, four at most.
pub fn program_run(page: &[u8], n: u16) -> u32
    ensures is { result ≡ program_run page.now n }
    ensures small { result ≤ most_blocks }
{
    for k in 0..BLOCKS {
        if !is_program(page, n as u32 + 1 + k) {
            return k;
        }
    }
    BLOCKS
}

// Byte j of the text after block n.
fn text_byte(page: &[u8], n: u16, j: u32) -> u8
    requires { j ≤ 2016 }
    ensures { result ≡ text_byte page.now n j }
{
    palette_at(page, n as u32 + 1 + j / ROOM, j % ROOM) as u8
}

// How many bytes a run of so many blocks has, four at most.
#[tactic(auto, unfolding(crate::specs::Calculator::run_size))]
fn run_size(blocks: u32) -> usize
    ensures is { result ≡ run_size blocks }
    ensures small { result ≤ 2016 }
{
    (ROOM * blocks.min(BLOCKS)) as usize
}

// What stands in a run of blocks, four at most.
#[derive(Drop)]
struct RunText {
    bytes: [u8; TEXT],
    size: usize,
}

impl Model for RunText {
    ghost Value = { List ℕ };

    ghost view = { λ t. take t.size t.bytes };

    ghost invariant = { λ t. t.size ≤ 2016 };
}

// Kept: a run is (page, n, blocks), the arguments of its definition `run_text`: a struct of them would be made for one call each.
impl RunText {
    // The text in so many blocks after block n.
    fn read(page: &[u8], n: u16, blocks: u32) -> Self
        ensures { result ≡ run_text page.now n blocks }
    {
        let size = run_size(blocks);
        let mut bytes = [0u8; TEXT];
        for j in 0..size {
            bytes[j] = text_byte(page, n, j as u32);
        }
        RunText { bytes, size }
    }

    // Its bytes.
    fn as_slice(&self) -> &[u8]
        ensures { result.now ≡ self.now }
    {
        &self.bytes[..self.size]
    }
}

// Is the run of so many blocks after block n filled as it must be? One to four blocks, the last with at least one byte of text, and only zeros after the text.
pub fn is_filled_run(page: &[u8], n: u16, blocks: u32) -> bool
    ensures { result ≡ filled_run blocks (run_text page.now n blocks) }
{
    is_filled(blocks, RunText::read(page, n, blocks).as_slice())
}

// What the program in the blocks after block n, so many and four at most, is refused with, where it is to take `taken` values and leave `count` numbers: for its
// text, and then for its stack. It calls itself for the four, and by its hint stays a function of its own when it is compiled: what judging needs takes memory
// only where there is a program.
#[inline(never)]
pub fn judge_run(
    page: &[u8],
    n: u16,
    blocks: u32,
    taken: usize,
    count: usize,
) -> Result<(), Refusal>
    ensures { refused_with result ≡ refusal_of taken count (run_text page.now n blocks) }
{
    if BLOCKS < blocks {
        return judge_run(page, n, BLOCKS, taken, count);
    }
    judge(RunText::read(page, n, blocks).as_slice(), taken, count)
}

// How many words the program in the blocks after block n has.
pub fn run_words(page: &[u8], n: u16, blocks: u32) -> usize
    ensures is { result ≡ length (words_by (read_of (run_text page.now n blocks))) }
    ensures small { result ≤ most_flat }
{
    size(RunText::read(page, n, blocks).as_slice())
}

// Puts the words of the program in the blocks after block n from `at` on, where there is room for them, and says how many they are.
pub fn put_run(page: &[u8], n: u16, blocks: u32, out: &mut [i32], at: usize) -> usize
    ensures is { result ≡ length (words_by (read_of (run_text page.now n blocks))) }
    ensures stores { out.new ≡ put_at out.old at (words_by (read_of (run_text page.now n blocks))) }
{
    put_words(RunText::read(page, n, blocks).as_slice(), out, at)
}

// The colour after the program in the blocks after block n, which takes `taken` values and whose `count` results replace the values from 0.
pub fn step_run(page: &[u8], n: u16, blocks: u32, taken: usize, count: usize, c: Colour) -> Colour
    requires { taken ≤ places }
    ensures { result ≡ program_step taken count (code_in (read_of (run_text page.now n blocks))) c }
{
    step(RunText::read(page, n, blocks).as_slice(), taken, count, c)
}
