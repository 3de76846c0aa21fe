// The states of a sheet that is being written, and why a call was refused.
ghost use Rattle.sheet.specs.Writing.{number};

use crate::heading::Heading;
use esop::refusal::Refusal;

// A sheet of which nothing is written. Each call takes the sheet and hands on the next state, so a state is used once.
#[derive(Drop)]
pub struct Blank {}

// A sheet with its heading: `due` rows are still to come, and `at` bytes are written. It holds numbers alone, since
// each call is lent the memory anew.
#[derive(Drop)]
pub struct Headed {
    pub(crate) heading: Heading,
    pub(crate) due: u32,
    pub(crate) at: usize,
}

// A whole sheet of `len` bytes.
#[derive(Drop)]
pub struct Closed {
    pub(crate) len: usize,
}

// Why a call wrote nothing.
#[derive(Clone, Copy, PartialEq, Eq, Debug)]
pub enum WriteRefusal {
    // the heading has a number out of its range
    Range,
    // the text does not fit the memory
    Full,
    // all rows that the heading tells are written
    NoRowDue,
    // the product has an input or drives an output that the heading does not tell
    OutOfHeading,
    // rows that the heading tells are still to come
    RowsMissing,
}

impl Refusal for WriteRefusal {
    ghost number = { number };

    fn number(self) -> u8 {
        match self {
            WriteRefusal::Range => 27,
            WriteRefusal::Full => 28,
            WriteRefusal::OutOfHeading => 29,
            WriteRefusal::NoRowDue => 30,
            WriteRefusal::RowsMissing => 31,
        }
    }
}
