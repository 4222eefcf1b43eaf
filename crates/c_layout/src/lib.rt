// How a reply is laid out for C: a verdict, the count of a recipe's words and the outcome of writing a block, and a page with a block of it, which is the high half
// of one. What a reply of 64 bits is stands in `sktelbaan_runner`, and a record in `c_records`.
#![tactic(auto)]

mod answers;

pub use answers::{count, done, no_ink, on_page, verdict};
