// A whole sheet in one call.
ghost use Rattle.std.specs.Prelude.{◌≡◌, true, cond, length};
ghost use Rattle.sheet.specs.Pens.{Room, Wrote};
ghost use Rattle.sheet.specs.Text.{sheet_text};
ghost use Rattle.sheet.specs.Writing.{in_range, sheet_answer, sheet_memory};

use crate::heading::Heading;
use crate::pen::Pen;
use crate::state::WriteRefusal;
use cube::Cube;

// The heading of a sheet of so many rows, where there is one.
fn heading_in_range(inputs: u32, outputs: u32, rows: usize) -> Option<Heading>
    ensures { result ≡ cond (in_range inputs outputs rows) (Some (record { inputs = inputs; outputs = outputs; rows = rows })) None }
{
    let rows = u32::try_from(rows).ok()?;
    let heading = Heading {
        inputs,
        outputs,
        rows,
    };
    heading.in_range().then_some(heading)
}

impl Pen<'_> {
    // Writes the whole sheet of the products.
    fn sheet(&mut self, heading: Heading, products: &[Cube])
        requires rows { length products.now ≡ heading.rows }
        requires range { in_range heading.inputs heading.outputs heading.rows ≡ true }
        requires room { Room self.old (sheet_text heading.inputs heading.outputs products.now) }
        ensures { Wrote self.old (sheet_text heading.inputs heading.outputs products.now) self.new }
    {
        self.heading(heading);
        for product in products {
            self.row(heading, product);
        }
        self.end();
    }
}

// Writes the sheet of the products from the start of the memory, and answers the number of its bytes. It takes no
// `Heading`, since its number of rows is that of the products.
pub fn write_sheet(
    memory: &mut [u8],
    inputs: u32,
    outputs: u32,
    products: &[Cube],
) -> Result<usize, WriteRefusal>
    ensures answer { result ≡ sheet_answer memory.old inputs outputs products.now }
    ensures text { memory.new ≡ sheet_memory memory.old inputs outputs products.now }
{
    let heading = heading_in_range(inputs, outputs, products.len()).ok_or(WriteRefusal::Range)?;
    if !heading.kept_by_all(products) {
        return Err(WriteRefusal::OutOfHeading);
    }
    let mut pen = Pen::new(memory, 0);
    if !pen.has_room(heading.sheet_len()) {
        return Err(WriteRefusal::Full);
    }
    pen.sheet(heading, products);
    Ok(pen.at())
}
