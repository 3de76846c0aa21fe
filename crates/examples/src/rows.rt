// Cubes from rows and back. A row has 0, 1 or - for each of its inputs; the inputs that it leaves out are absent.
use cube::{Cube, Form};
use std::fmt;

// The form that a character stands for; any other than 0 and 1 is absent, so it is no `TryFrom`.
fn form(char: u8) -> Form {
    match char {
        b'0' => Form::Negative,
        b'1' => Form::Positive,
        _ => Form::Absent,
    }
}

// The cube of a row that drives these outputs; with no output, or too many, output 0.
pub(crate) fn cube(row: &str, outputs: u32) -> Cube {
    let blank = Cube::new(0xffff_ffff, 0xffff_ffff, outputs).unwrap_or(Cube::tautology());
    (0..32)
        .zip(row.bytes())
        .fold(blank, |cube, (i, char)| cube.with_form(i, form(char)))
}

// The row of a cube with so many inputs and outputs. Its characters are those of a sheet, which writes them into memory
// and displays nothing.
#[derive(Clone, Copy)]
pub(crate) struct Row {
    pub(crate) cube: Cube,
    pub(crate) inputs: u32,
    pub(crate) outputs: u32,
}

impl fmt::Display for Row {
    fn fmt<W: fmt::Write>(&self, f: &mut fmt::Formatter<W>) -> fmt::Result {
        for i in 0..self.inputs {
            f.write_char(match self.cube.form(i) {
                Form::Negative => '0',
                Form::Positive => '1',
                Form::Absent => '-',
            })?;
        }
        f.write_char(' ')?;
        for o in 0..self.outputs {
            f.write_char(if self.cube.drives(o) { '1' } else { '0' })?;
        }
        Ok(())
    }
}
