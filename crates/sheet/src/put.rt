// The lines of a sheet, as a pen writes them.
ghost use Rattle.std.specs.Prelude.{◌≡◌, ◌<◌, true};
ghost use Rattle.sheet.specs.Pens.{Room, Wrote};
ghost use Rattle.sheet.specs.Text.{field, line, heading_text, row_text, end_text, form_char, driven_char};
ghost use Rattle.sheet.specs.Writing.{in_range};

use crate::heading::Heading;
use crate::pen::Pen;
use cube::{Cube, Form};

// The last line of a sheet.
pub(crate) const END: [u8; 3] = *b".e\n";

// The character of an input.
// It is no `From`, since neither type is of this crate.
fn form_char(form: Form) -> u8
    ensures { result ≡ form_char form }
{
    match form {
        Form::Negative => b'0',
        Form::Positive => b'1',
        Form::Absent => b'-',
    }
}

// The character of an output.
// It is no `From`, since neither type is of this crate.
fn driven_char(driven: bool) -> u8
    ensures { result ≡ driven_char driven }
{
    if driven { b'1' } else { b'0' }
}

impl Pen<'_> {
    // Writes a line of a letter and a number.
    #[tactic(auto, using(crate::proofs::DecimalLaws::heading_lengths))]
    fn field(&mut self, letter: u8, n: u32)
        requires short { n < 1000 }
        requires room { Room self.old (line (field letter n)) }
        ensures { Wrote self.old (line (field letter n)) self.new }
    {
        self.text(&[b'.', letter, b' ']);
        self.short(n);
        self.text(b"\n");
    }

    // Writes the four lines of the heading.
    #[tactic(auto, using(crate::proofs::DecimalLaws::heading_lengths))]
    pub(crate) fn heading(&mut self, heading: Heading)
        requires range { in_range heading.inputs heading.outputs heading.rows ≡ true }
        requires room { Room self.old (heading_text heading.inputs heading.outputs heading.rows) }
        ensures { Wrote self.old (heading_text heading.inputs heading.outputs heading.rows) self.new }
    {
        self.field(b'i', heading.inputs);
        self.field(b'o', heading.outputs);
        self.text(b".type esop\n");
        self.field(b'p', heading.rows);
    }

    // Writes the line of a product.
    #[tactic(auto, using(crate::proofs::PutLaws::row_length))]
    pub(crate) fn row(&mut self, heading: Heading, product: &Cube)
        requires { Room self.old (row_text heading.inputs heading.outputs product.now) }
        ensures { Wrote self.old (row_text heading.inputs heading.outputs product.now) self.new }
    {
        self.chars(heading.inputs, |j| form_char(product.form(j)));
        self.text(b" ");
        self.chars(heading.outputs, |j| driven_char(product.drives(j)));
        self.text(b"\n");
    }

    // Writes the last line.
    pub(crate) fn end(&mut self)
        requires { Room self.old end_text }
        ensures { Wrote self.old end_text self.new }
    {
        self.text(&END);
    }
}
