// House inks beside the job's: an ink is asked for by its name, of two pages that are validated on every call. Its name is given as it stands in the job's
// page if a Separation there has it, else in the house page, with block and page (FORMAT.md, Inks by name).
#![tactic(auto)]

mod asking;

pub use asking::{find, name_in};
