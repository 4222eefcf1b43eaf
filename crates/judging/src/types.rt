// What a text is refused with.
use std::error::Error;
use std::fmt;

// A text is refused with a number, at a byte.
// Kept: the number is no `Refusal`, since `designer::end` answers a state that nobody wrote with whatever number its words hold.
#[derive(Clone, Copy, Debug, PartialEq, Eq)]
pub struct TextRefusal {
    pub number: u32,
    pub at: u32,
}

impl fmt::Display for TextRefusal {
    fn fmt<W: fmt::Write>(&self, f: &mut fmt::Formatter<W>) -> fmt::Result {
        write!(f, "refused {} at {}", self.number, self.at)
    }
}

impl Error for TextRefusal {}
