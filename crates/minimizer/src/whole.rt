// Shrinking the sheet of a text, in memory that the caller lends.
ghost use Rattle.std.specs.Prelude.{◌≡◌, min, length, Ok};
ghost use Rattle.reader.specs.Reading.{read};
ghost use Rattle.minimizer.specs.Loading.{loadable, heading_or};
ghost use Rattle.minimizer.specs.Minimizing.{workable, shrinkable, Minimizes, Untried};

use crate::loader::admit;
use crate::refusal::MinimizeRefusal;
use crate::report::Minimized;
use crate::shrink::shrink;
use cover::memory::MOST;
use cube::Cube;
use reader::{Heading, read_sheet};

// Questions 26, 1 and 6, of a text that is to be read into a list of `places` places and entered into a cover of
// `room` free ones, with a work memory of `work` places.
fn consider(
    text: &[u8],
    places: usize,
    room: usize,
    work: usize,
) -> Result<Heading, MinimizeRefusal>
    ensures { result ≡ heading_or (workable work (loadable room (read places text.now))) }
{
    let heading = admit(text, places, room)?;
    if heading.rows as usize + 2 > work {
        return Err(MinimizeRefusal::NoWork);
    }
    Ok(heading)
}

// Stores the rows of a text that was found right, and shrinks their cover.
fn shrink_rows(
    text: &[u8],
    places: &mut [Cube],
    list: &mut [Cube],
    work: &mut [Cube],
    heading: Heading,
) -> Minimized
    requires { Ok heading ≡ heading_or (shrinkable (length places.old) (length work.old) (read (length list.old) text.now)) }
    ensures minimizes { Minimizes (shrinkable (length places.old) (length work.old) (read (length list.old) text.now)) places.old list.old (length work.old) (Ok result) places.new list.new }
    ensures work { Untried (Ok result) → work.new ≡ work.old }
{
    read_sheet(text, list).unwrap();
    let shrunk = shrink(places, list, heading.rows as usize, work);
    Minimized {
        heading,
        count: shrunk.count,
        reduced: shrunk.reduced,
        refined: shrunk.refined,
    }
}

// Reads a text into the list, enters its rows into a cover on the places, and runs Reduce and then Refine over it. It
// answers the numbers of the heading, the count of the products that are left, which are the first of the places, and
// the two runs. All is asked before anything is stored: a refusal leaves all memory as it was. Each memory is lent by
// itself, as callers have it.
pub fn minimize(
    text: &[u8],
    places: &mut [Cube],
    list: &mut [Cube],
    work: &mut [Cube],
) -> Result<Minimized, MinimizeRefusal>
    ensures minimizes { Minimizes (shrinkable (length places.old) (length work.old) (read (length list.old) text.now)) places.old list.old (length work.old) result places.new list.new }
    ensures work { Untried result → work.new ≡ work.old }
{
    let heading = consider(text, list.len(), places.len().min(MOST), work.len())?;
    Ok(shrink_rows(text, places, list, work, heading))
}
