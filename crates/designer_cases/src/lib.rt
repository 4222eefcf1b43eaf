// Cases of designers' texts, for the program `cases`.
#![tactic(auto)]

mod texts;

pub use texts::text_case;
