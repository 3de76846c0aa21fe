// The public call: everything from the input's bytes to the printed bytes.
ghost use Rattle.std.specs.Prelude.{◌≡◌, length};
ghost use Rattle.expansion.specs.Answers.{expansion_of};
ghost use Rattle.expansion.specs.Tables.{inputs_of};
ghost use Rattle.sheet.specs.Refusing.{length_within, kept_within, Answered};
ghost use Rattle.expander.specs.Printing.{inputs_among, sheet_from, sheet_of, printed};

use crate::line::{line_of, spell};
use crate::refusal::PrintRefusal;
use cube::Cube;
use expansion::{ExpandRefusal, expand, inputs_of};
use sheet::{write_answer, write_sheet};

// The inputs of the sheet of a line of this length.
fn sheet_inputs(len: usize) -> u32
    ensures { result ≡ inputs_among (inputs_of len) }
{
    inputs_of(len).unwrap_or(1).max(1)
}

// Expands the table into the list, and writes the sheet of its products.
fn sheet_with(table: &mut [u8], list: &mut [Cube], text: &mut [u8]) -> Result<usize, PrintRefusal>
    ensures { Answered (sheet_from text.old (inputs_among (inputs_of (length table.old))) (expansion_of table.old 0 (length list.old))) text.old result text.new }
{
    let count = expand(table, 0, list)?;
    Ok(write_sheet(text, sheet_inputs(table.len()), 1, &list[..count])?)
}

// Writes the sheet of a line. A line longer than a table can be has no place in the table's memory.
fn sheet_of(line: &[u8], text: &mut [u8]) -> Result<usize, PrintRefusal>
    ensures { Answered (sheet_of text.old line.now) text.old result text.new }
{
    let n = line.len();
    if n > 1024 {
        return Err(PrintRefusal::Table(ExpandRefusal::Length));
    }
    let mut table = [0u8; 1024];
    let mut list = [Cube::tautology(); 960];
    spell(line, &mut table);
    sheet_with(&mut table[..n], &mut list, text)
}

// Writes what is printed for an input to the start of the text memory, and answers the number of its bytes; where the
// memory is too short for it, nothing is written.
pub fn print_expansion(input: &[u8], text: &mut [u8]) -> Option<usize>
    ensures answer { result ≡ length_within text.old (printed text.old input.now) }
    ensures text { text.new ≡ kept_within text.old (printed text.old input.now) }
{
    let answer = sheet_of(line_of(input), text);
    write_answer(text, answer)
}
