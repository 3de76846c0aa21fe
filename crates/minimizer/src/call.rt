// The call that the program makes: everything from the text that was read to the bytes that are printed.
ghost use Rattle.std.specs.Prelude.{◌≡◌, ℕ, ◌≤◌, List, length, take};
ghost use Rattle.sheet.specs.Refusing.{length_within, kept_within, Answered};
ghost use Rattle.minimizer.specs.Printing.{reading, printout_or, printable_text, printed, Promised};

use crate::printout::write_printout;
use crate::refusal::PrintRefusal;
use crate::report::Minimized;
use crate::whole::minimize;
use cube::Cube;
use sheet::write_answer;

// Writes the printout of a sheet that was shrunk, whose products are the first of the places.
fn put_minimized(
    text: &mut [u8],
    minimized: Minimized,
    places: &[Cube],
) -> Result<usize, PrintRefusal>
    requires { minimized.count ≤ length places.now }
    ensures { Answered (printout_or text.old minimized.heading.inputs minimized.heading.outputs minimized.reduced minimized.refined (take minimized.count places.now)) text.old result text.new }
{
    let heading = minimized.heading;
    Ok(write_printout(
        text,
        heading.inputs,
        heading.outputs,
        minimized.reduced,
        minimized.refined,
        &places[..minimized.count],
    )?)
}

// Shrinks the sheet of the first `len` bytes, and writes its printout over them. It carries the promise of what is
// printed to the call above.
fn print_sheet(text: &mut [u8], len: usize) -> Result<usize, PrintRefusal>
    ensures answered { Answered (printable_text text.old (reading text.old len)) text.old result text.new }
    ensures promised { (m : List ℕ) (n : ℕ) → Promised m (reading m n) (printed m n) }
{
    let mut places = [Cube::tautology(); 960];
    let mut list = [Cube::tautology(); 960];
    let mut work = [Cube::tautology(); 962];
    let end = len.min(text.len());
    let minimized = minimize(&text[..end], &mut places, &mut list, &mut work)?;
    put_minimized(text, minimized, &places)
}

// Takes the first `len` bytes of the memory for the text of a sheet, and writes what is printed for it to the memory's
// start: the printout of the shrunk sheet, or the line of a refusal. It answers the number of bytes; where the memory
// is too short even for the line, nothing is written. One memory serves for both, so the length of the text is told.
pub fn print_minimized(text: &mut [u8], len: usize) -> Option<usize>
    ensures answer { result ≡ length_within text.old (printed text.old len) }
    ensures text { text.new ≡ kept_within text.old (printed text.old len) }
    ensures promised { Promised text.old (reading text.old len) (printed text.old len) }
{
    let answer = print_sheet(text, len);
    write_answer(text, answer)
}
