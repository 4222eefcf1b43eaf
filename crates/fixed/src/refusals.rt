// Why something is refused (FORMAT.md, Refusals): each reason by its name, its number, and the block that a refusal is about.
ghost use Rattle.std.specs.Prelude.{◌≡◌};

use std::error::Error;
use std::fmt;

// The reasons, in the order of their numbers.
#[derive(Clone, Copy, Debug, PartialEq, Eq, Hash)]
pub enum Refusal {
    Length = 1,
    Check = 2,
    Form = 3,
    ClauseRule = 4,
    HouseLimit = 5,
    Reference = 6,
    RunOrSpareEntry = 7,
    NoSuchSpace = 8,
    Components = 9,
    Room = 10,
    Recipe = 11,
    Syntax = 12,
    TextNumber = 13,
    Key = 14,
    TooManyBlocks = 15,
    ProgramText = 16,
    ProgramStack = 17,
}

impl Refusal {
    ghost use Rattle.fixed.specs.Refusals.{number_of};

    // Its number.
    pub fn number(self) -> u32
        ensures { result ≡ number_of self }
    {
        self as u32
    }

    // The same, said of a block.
    pub fn of_block(self, block: u32) -> Refused
        ensures is { result.refusal ≡ self }
        ensures about { result.block ≡ block }
    {
        Refused {
            refusal: self,
            block,
        }
    }
}

impl fmt::Display for Refusal {
    fn fmt<W: fmt::Write>(&self, f: &mut fmt::Formatter<W>) -> fmt::Result {
        let number = self.number();
        write!(f, "refused {number}")
    }
}

impl Error for Refusal {}

// A refusal, with the block of the page that it is about, 0 where it is about none.
#[derive(Clone, Copy, Debug, PartialEq, Eq, Hash)]
pub struct Refused {
    pub refusal: Refusal,
    pub block: u32,
}

impl fmt::Display for Refused {
    fn fmt<W: fmt::Write>(&self, f: &mut fmt::Formatter<W>) -> fmt::Result {
        let refusal = self.refusal;
        let block = self.block;
        write!(f, "{refusal} block {block}")
    }
}

impl Error for Refused {}
