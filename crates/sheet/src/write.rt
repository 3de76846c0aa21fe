// The calls on a sheet. Each takes the state before it and hands on the state after it, or, where it is refused, the
// same state again; it asks all it has to ask before it writes.
ghost use Rattle.std.specs.Prelude.{◌≡◌};
ghost use Rattle.sheet.specs.Writing.{blank, heading_answer, heading_memory, row_answer, row_memory, end_answer, end_memory};

use crate::heading::Heading;
use crate::pen::Pen;
use crate::put::END;
use crate::state::{Blank, Closed, Headed, WriteRefusal};
use cube::Cube;

impl Blank {
    // A blank sheet; all are alike.
    pub fn new() -> Blank
        ensures { result ≡ blank }
    {
        Blank {}
    }

    // Writes the heading from the start of the memory.
    pub fn head(self, memory: &mut [u8], heading: Heading) -> Result<Headed, (Blank, WriteRefusal)>
        ensures answer { result ≡ heading_answer self memory.old heading.inputs heading.outputs heading.rows }
        ensures text { memory.new ≡ heading_memory memory.old heading.inputs heading.outputs heading.rows }
    {
        if !heading.in_range() {
            return Err((self, WriteRefusal::Range));
        }
        let mut pen = Pen::new(memory, 0);
        if !pen.has_room(heading.text_len()) {
            return Err((self, WriteRefusal::Full));
        }
        pen.heading(heading);
        Ok(Headed {
            heading,
            due: heading.rows,
            at: pen.at(),
        })
    }
}

impl Headed {
    // Writes the row of the product.
    pub fn row(self, memory: &mut [u8], product: &Cube) -> Result<Headed, (Headed, WriteRefusal)>
        ensures answer { result ≡ row_answer self memory.old product.now }
        ensures text { memory.new ≡ row_memory self memory.old product.now }
    {
        if self.due == 0 {
            return Err((self, WriteRefusal::NoRowDue));
        }
        if !self.heading.kept_by(product) {
            return Err((self, WriteRefusal::OutOfHeading));
        }
        let mut pen = Pen::new(memory, self.at);
        if !pen.has_room(self.heading.row_len()) {
            return Err((self, WriteRefusal::Full));
        }
        pen.row(self.heading, product);
        Ok(Headed {
            due: self.due - 1,
            at: pen.at(),
            ..self
        })
    }

    // Writes the end, once all rows are written.
    pub fn end(self, memory: &mut [u8]) -> Result<Closed, (Headed, WriteRefusal)>
        ensures answer { result ≡ end_answer self memory.old }
        ensures text { memory.new ≡ end_memory self memory.old }
    {
        if self.due > 0 {
            return Err((self, WriteRefusal::RowsMissing));
        }
        let mut pen = Pen::new(memory, self.at);
        if !pen.has_room(END.len()) {
            return Err((self, WriteRefusal::Full));
        }
        pen.end();
        Ok(Closed { len: pen.at() })
    }
}

impl Closed {
    // The number of bytes of the sheet.
    pub fn len(self) -> usize
        ensures { result ≡ self.len }
    {
        self.len
    }
}
