// Where the reader stands, what it answers, and why it refuses a text.
ghost use Rattle.std.specs.Prelude.{◌≡◌, Some};
ghost use Rattle.reader.specs.Reading.{number_of, printed};
ghost use Rattle.reader.specs.Rows.{row_refusal};

use cube::CubeRefusal;
use esop::refusal::Refusal;
pub use sheet::Heading;
use std::fmt;

// The line that is due, with what was read before it. Of the heading's rows `left` are still to come.
#[derive(Clone, Copy)]
pub enum State {
    Inputs,
    Outputs { inputs: u32 },
    Type { inputs: u32, outputs: u32 },
    Count { inputs: u32, outputs: u32 },
    Rows { heading: Heading, left: u32 },
    Ended { heading: Heading },
}

// Why a text is refused.
#[derive(Clone, Copy, PartialEq, Eq, Debug)]
pub enum ReadRefusal {
    // it has more than 64,000 bytes
    TooLong,
    // the line does not end in a line feed
    Unended,
    // another line is due, or none
    NotDue,
    // all lines are read, and the end is missing
    NoEnd,
    // no number in range stands after the start of the line
    Number,
    // the row is not well formed
    Malformed,
    // the row has no output 1
    NoOutput,
    // a row too many, or the end with rows missing
    RowCount,
    // the list has fewer places than the heading tells rows
    FewPlaces,
}

// A refusal with the line that it is about, counted from 1; 0 is the whole text. It is printed like a line, so an
// `Option` would be turned back into that 0.
#[derive(Clone, Copy, PartialEq, Eq, Debug)]
pub struct Refused {
    pub why: ReadRefusal,
    pub line: usize,
}

impl Refusal for ReadRefusal {
    ghost number = { number_of };

    fn number(self) -> u8 {
        match self {
            ReadRefusal::TooLong => 17,
            ReadRefusal::Unended => 18,
            ReadRefusal::NotDue => 19,
            ReadRefusal::NoEnd => 20,
            ReadRefusal::Number => 21,
            ReadRefusal::Malformed => 22,
            ReadRefusal::NoOutput => 23,
            ReadRefusal::RowCount => 24,
            ReadRefusal::FewPlaces => 25,
        }
    }
}

// Why a row makes no product. Each character gave its input a form, so what may lack is an output.
impl From<CubeRefusal> for ReadRefusal {
    ghost from_gives = { λ why refusal. refusal ≡ row_refusal why };

    fn from(why: CubeRefusal) -> ReadRefusal {
        match why {
            CubeRefusal::NoForm => ReadRefusal::Malformed,
            CubeRefusal::NoOutput => ReadRefusal::NoOutput,
        }
    }
}

impl fmt::Display for Refused {
    ghost output = { λ refused. Some (printed refused) };

    fn fmt<W: fmt::Write>(&self, f: &mut fmt::Formatter<W>) -> fmt::Result {
        write!(f, "refused {} line {}", self.why.number(), self.line)
    }
}
