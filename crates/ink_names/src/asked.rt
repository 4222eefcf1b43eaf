// What asking for an ink comes to.
use fixed::{Refusal, Refused};
use std::error::Error;
use std::fmt;

// A page of the two.
#[derive(Clone, Copy, Debug, PartialEq, Eq, Hash)]
pub enum Side {
    Job,
    House,
}

// Where an ink was found: the page, and the lowest of its blocks that has the name.
#[derive(Clone, Copy, Debug, PartialEq, Eq, Hash)]
pub struct Place {
    pub page: Side,
    pub block: u32,
}

// Why none was: a page is refused, or neither has the name.
#[derive(Clone, Copy, Debug, PartialEq, Eq, Hash)]
pub enum AskError {
    JobRefused(Refused),
    HouseRefused(Refused),
    NoSuchInk,
}

impl fmt::Display for AskError {
    fn fmt<W: fmt::Write>(&self, f: &mut fmt::Formatter<W>) -> fmt::Result {
        match self {
            AskError::JobRefused(e) => write!(f, "{} job block {}", e.refusal, e.block),
            AskError::HouseRefused(e) => write!(f, "{} house block {}", e.refusal, e.block),
            AskError::NoSuchInk => write!(f, "{} neither block 0", Refusal::NoSuchSpace),
        }
    }
}

impl Error for AskError {}
