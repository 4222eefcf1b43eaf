// The listing of a page as text: its count of blocks, and a line for each space; or one line where the page is refused. It is put into bytes that are lent.
#![tactic(auto)]

mod listing;

pub use listing::list;

// The most bytes of a listing: 18 for the count, and 44 for the line of a block.
pub const LONGEST: usize = 18 + 44 * (fixed::BLOCKS as usize);
