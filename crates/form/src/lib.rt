// The flat form of a calculator program (clause 7.10.5), steps 12 and 13 of a recipe: checking its words.
#![tactic(auto)]

mod bits;
mod checking;
mod needs;
mod paths;
mod placed;
mod table;
mod taking;

pub use checking::is_form;
use fixed::{FLAT, LONGEST};
pub use placed::is_form_at;
pub use taking::{nearest_count, taken};

// Which tints a program takes: the one of a Separation, or as many as a DeviceN has names.
#[derive(Clone, Copy, Drop)]
pub enum Tints {
    One,
    Inks(u32),
}

// The most words of a flat form: a recipe has room for no more.
pub const WORDS: usize = LONGEST - 4;

// The words of the checker's table: two for each word of a form, and two for its end. The table for as many as a form may have, and that for a program that a
// page can have.
const TABLE: usize = 2 * (WORDS + 1);

const FLAT_TABLE: usize = 2 * (FLAT + 1);
