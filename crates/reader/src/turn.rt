// The reader: it hands out the lines of a text one after another, and knows which line is due.
ghost use Rattle.std.specs.Prelude.{◌≡◌};
ghost use Rattle.reader.specs.Lines.{shown};
ghost use Rattle.reader.specs.Reading.{step, rows_due};
ghost use Rattle.reader.specs.Turns.{Moved, Follows, Turned, finished};

use crate::line::{Line, classify, cut};
use crate::number::{count, number};
use crate::row::product;
use crate::state::{Heading, ReadRefusal, State};
use cube::Cube;

// What is left of a text that is read into a list of `places` places.
#[derive(Drop)]
pub struct Reader<'a> {
    rest: &'a [u8],
    places: usize,
    state: State,
}

// What one line more comes to.
#[derive(Drop)]
pub enum Turn {
    // the line adds no product
    Passed,
    Product(Cube),
    // no line is left
    Ended(Heading),
}

impl<'a> Reader<'a> {
    pub(crate) fn new(text: &'a [u8], places: usize) -> Self
        ensures rest { result.rest.now ≡ text.now }
        ensures places { result.places ≡ places }
        ensures state { result.state ≡ State.Inputs }
    {
        Reader {
            rest: text,
            places,
            state: State::Inputs,
        }
    }

    // Hands out the next line, or refuses bytes that no line feed ends.
    fn next(&mut self) -> Option<Result<Line<'a>, ReadRefusal>>
        ensures { Moved self.old self.new result }
    {
        if self.rest.is_empty() {
            return None;
        }
        let Some((line, rest)) = cut(self.rest, b'\n') else {
            return Some(Err(ReadRefusal::Unended));
        };
        self.rest = rest;
        Some(Ok(classify(line)))
    }

    // Takes a line where it is due.
    fn step(&mut self, line: Line<'a>) -> Result<Option<Cube>, ReadRefusal>
        ensures answer { Follows self.new.state result (step self.old.places self.old.state (shown line.entry)) }
        ensures places { self.new.places ≡ self.old.places }
        ensures rest { self.new.rest.now ≡ self.old.rest.now }
    {
        match (&mut self.state, line) {
            (State::Ended { .. }, _) => Err(ReadRefusal::NotDue),
            (_, Line::Skipped) => Ok(None),
            (State::Inputs, Line::Inputs(part)) => {
                let inputs = number(part, 1..=32)?;
                self.state = State::Outputs { inputs };
                Ok(None)
            }
            (&mut State::Outputs { inputs }, Line::Outputs(part)) => {
                let outputs = number(part, 1..=32)?;
                self.state = State::Type { inputs, outputs };
                Ok(None)
            }
            (&mut State::Type { inputs, outputs }, Line::Type) => {
                self.state = State::Count { inputs, outputs };
                Ok(None)
            }
            (&mut State::Count { inputs, outputs }, Line::Count(part)) => {
                let rows = count(part, self.places)?;
                let heading = Heading {
                    inputs,
                    outputs,
                    rows,
                };
                self.state = State::Rows {
                    heading,
                    left: rows,
                };
                Ok(None)
            }
            (State::Rows { .. }, line) => self.row_step(line),
            _ => Err(ReadRefusal::NotDue),
        }
    }

    // Takes a line where a row or the end is due.
    fn row_step(&mut self, line: Line<'a>) -> Result<Option<Cube>, ReadRefusal>
        ensures answer { Follows self.new.state result (rows_due self.old.state (shown line.entry)) }
        ensures places { self.new.places ≡ self.old.places }
        ensures rest { self.new.rest.now ≡ self.old.rest.now }
    {
        match (&mut self.state, line) {
            (State::Rows { .. }, Line::Skipped) => Ok(None),
            (State::Rows { left: 0, .. }, Line::Row { .. } | Line::Plain) => {
                Err(ReadRefusal::RowCount)
            }
            (State::Rows { heading, left }, Line::Row { inputs, outputs }) => {
                let product = product(inputs, outputs, *heading)?;
                *left -= 1;
                Ok(Some(product))
            }
            (State::Rows { .. }, Line::Plain) => Err(ReadRefusal::Malformed),
            (&mut State::Rows { heading, left: 0 }, Line::End) => {
                self.state = State::Ended { heading };
                Ok(None)
            }
            (State::Rows { .. }, Line::End) => Err(ReadRefusal::RowCount),
            _ => Err(ReadRefusal::NotDue),
        }
    }

    // The answer where all lines are read.
    fn finish(&self) -> Result<Turn, ReadRefusal>
        ensures { result ≡ finished self.now.state }
    {
        match self.state {
            State::Ended { heading } => Ok(Turn::Ended(heading)),
            _ => Err(ReadRefusal::NoEnd),
        }
    }

    // Reads one line more.
    pub(crate) fn turn(&mut self) -> Result<Turn, ReadRefusal>
        ensures { Turned self.old self.new result }
    {
        match self.next() {
            None => self.finish(),
            Some(line) => match self.step(line?)? {
                None => Ok(Turn::Passed),
                Some(product) => Ok(Turn::Product(product)),
            },
        }
    }
}
