// Loading: the rows of a text are read into a list, and entered into a cover of cubes from there.
ghost use Rattle.std.specs.Prelude.{◌≡◌, false, length, is_ok, Ok};
ghost use Rattle.reader.specs.Reading.{read};
ghost use Rattle.cover.specs.Holding.{spare};
ghost use Rattle.minimizer.specs.Loading.{loadable, heading_or, Loads};

use crate::refusal::LoadRefusal;
use crate::report::Loaded;
use cover::memory::{Cover, MOST};
use cube::Cube;
use reader::{Heading, judge_sheet, read_sheet};

// Questions 26 and 1, of a text that is to be read into a list of `places` places and entered into a cover of `room`
// free ones.
pub(crate) fn admit(text: &[u8], places: usize, room: usize) -> Result<Heading, LoadRefusal>
    ensures { result ≡ heading_or (loadable room (read places text.now)) }
{
    let heading = judge_sheet(text, places)?;
    if heading.rows as usize > room {
        return Err(LoadRefusal::NoPlace);
    }
    Ok(heading)
}

// Stores the rows of a text that is admitted, and enters them.
fn enter_rows(
    text: &[u8],
    list: &mut [Cube],
    cover: &mut Cover<'_, Cube, MOST>,
    heading: Heading,
) -> Loaded
    requires { Ok heading ≡ heading_or (loadable (spare cover.old) (read (length list.old) text.now)) }
    ensures { Loads (loadable (spare cover.old) (read (length list.old) text.now)) cover.old list.old (Ok result) cover.new list.new }
{
    read_sheet(text, list).unwrap();
    cover.enter_all(&list[..heading.rows as usize]).unwrap();
    Loaded {
        heading,
        count: cover.products().len(),
    }
}

// Loads the rows of a text into the cover, through the list, and answers the numbers of its heading and the new count.
// All is asked before anything is stored: a refusal leaves list and cover as they were.
pub fn load(
    text: &[u8],
    list: &mut [Cube],
    cover: &mut Cover<'_, Cube, MOST>,
) -> Result<Loaded, LoadRefusal>
    ensures loads { Loads (loadable (spare cover.old) (read (length list.old) text.now)) cover.old list.old result cover.new list.new }
    ensures same { is_ok result ≡ false → cover.new ≡ cover.old }
{
    let heading = admit(text, list.len(), cover.room())?;
    Ok(enter_rows(text, list, cover, heading))
}
