// What is refused of one record, by the definitions of `record`, Rules: the form of its block, the clause rules, the house limits, and what is spare.
#![tactic(auto)]

mod naming;
mod rules;
mod shape;
mod spare;

pub use rules::{fault, is_lawful_at, is_referring, is_supported, name_count};
pub use shape::{is_well_formed, is_well_laid, is_well_shaped, zero_between};
pub use spare::{entries_end, palette_ends};
