// What designers' texts and calculator programs have in common, as ISO 32000-1 has it in 7.2 and 7.3: characters, numbers, and names as their bytes.
#![tactic(auto)]

mod chars;
mod names;
mod numbers;
mod types;

pub use chars::{
    hex_byte, hex_of, is_decimal, is_delimiter, is_line_end, is_octal, is_regular, is_white,
};
pub use names::is_word;
pub use numbers::{
    is_exactly, is_number, is_whole, no_number, number_fits, value_of, whole, with_figure,
};
pub use types::{Number, Part};
