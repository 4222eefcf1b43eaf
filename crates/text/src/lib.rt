// Text for the programs: lines read off standard input, and numbers, floats, answers and refusals written to standard output.
#![tactic(auto)]

mod input;
mod output;

pub use input::{bytes_in, line_in, numbers_in, read_full};
pub use output::{
    say, say_answer, say_bytes, say_dotted, say_float, say_next, say_number, say_size, say_xyz,
};
