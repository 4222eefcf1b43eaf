// One record of a colour space: its types, its place in a block of 512 bytes, and what a block says.
//
// Functions that read take a page and the number of a block on it; a block that stands alone is block 0.
#![tactic(auto)]

mod fits;
mod kinds;
mod names;
mod read;
mod types;

pub use fits::record_fits;
pub use names::{are_none, is_name, is_same_name, name_place};
pub use read::{
    body_at, entries_of, is_palette, is_program, kind_at, names_at, own_at, palette_at, record_at,
};
pub use types::{
    Body, CalGray, CalRgb, Four, Lab, NAME_FROM, NAMES, NUMBERS, ROOM, Ranges, Record, Separation,
    Triple,
};
