// Reading a whole text.
ghost use Rattle.std.specs.Prelude.{◌≡◌, ℕ, ◌≤◌, true, List, length};
ghost use Rattle.reader.specs.Back.{CallsReadBack, ReadsBack, Spells};
ghost use Rattle.reader.specs.Reading.{verdict, read, told, stored};
ghost use Rattle.reader.specs.Turns.{accepted};

use crate::state::{Heading, ReadRefusal, Refused};
use crate::turn::{Reader, Turn};
use cube::Cube;

// Judges the whole text, and stores nothing.
fn judge(text: &[u8], places: usize) -> Result<Heading, Refused>
    requires { length text.now ≤ 64000 }
    ensures { result ≡ told (verdict places text.now) }
{
    let mut reader = Reader::new(text, places);
    // Counted by hand, in each arm by itself: a line is told with its refusal alone, and `turn` is no iterator, since
    // it takes a line only where it is due.
    let mut line = 1;
    loop {
        match reader.turn().map_err(|why| Refused { why, line })? {
            Turn::Passed => line += 1,
            Turn::Product(_) => line += 1,
            Turn::Ended(heading) => return Ok(heading),
        }
    }
}

// Stores the products of a text that was judged right, so that the loop ends at its end and no refusal comes.
// A loop of its own: only such a text has a place in the list for each product, so none is looked for.
fn store(text: &[u8], list: &mut [Cube])
    requires { accepted (read (length list.old) text.now) ≡ true }
    ensures { list.new ≡ stored list.old (read (length list.old) text.now) }
{
    let mut reader = Reader::new(text, list.len());
    // Counted by hand: not every line has a product.
    let mut row = 0;
    while let Ok(turn) = reader.turn() {
        match turn {
            Turn::Passed => {}
            Turn::Product(product) => {
                list[row] = product;
                row += 1;
            }
            Turn::Ended(_) => break,
        }
    }
}

// The longest text that is read. It carries the laws of reading to every call that asks for it: the rows of a text that
// is accepted spell its products, and what is written as a sheet is read back.
fn longest() -> usize
    ensures value { result ≡ 64000 }
    ensures spells { (places : ℕ) (bytes : List ℕ) → Spells places bytes }
    ensures back { (places : ℕ) → ReadsBack places }
    ensures calls { (places : ℕ) → CallsReadBack places }
{
    64_000
}

// Judges a text that is to be read into a list of so many places, and answers the numbers of its heading.
pub fn judge_sheet(text: &[u8], places: usize) -> Result<Heading, Refused>
    ensures answer { result ≡ told (read places text.now) }
    ensures spells { Spells places text.now }
    ensures back { ReadsBack places }
    ensures calls { CallsReadBack places }
{
    if text.len() > longest() {
        return Err(Refused {
            why: ReadRefusal::TooLong,
            line: 0,
        });
    }
    judge(text, places)
}

// Reads a text into the list from its start on, and answers the numbers of its heading. All of the text is judged
// before a product is stored, so a refusal leaves the list as it was.
pub fn read_sheet(text: &[u8], list: &mut [Cube]) -> Result<Heading, Refused>
    ensures answer { result ≡ told (read (length list.old) text.now) }
    ensures products { list.new ≡ stored list.old (read (length list.old) text.now) }
    ensures spells { Spells (length list.old) text.now }
    ensures back { ReadsBack (length list.old) }
    ensures calls { CallsReadBack (length list.old) }
{
    let heading = judge_sheet(text, list.len())?;
    store(text, list);
    Ok(heading)
}
