// The public call: its questions in order, then the products.
ghost use Rattle.std.specs.Prelude.{◌≡◌, ◌<◌, true, length, Some};
ghost use Rattle.expansion.specs.Tables.{binary, inputs_of};
ghost use Rattle.expansion.specs.Answers.{Expanded, start_of};

use crate::emit::emit;
use crate::refusal::ExpandRefusal;
use crate::survey::survey;
use cube::Cube;

// The number of inputs of a table of this length, where it is a power of two from 1 to 1,024.
#[tactic(auto, using(crate::proofs::TableLaws::inputs_some, crate::proofs::TableLaws::inputs_none, crate::proofs::TableLaws::inputs_past))]
pub fn inputs_of(len: usize) -> Option<u32>
    ensures { result ≡ inputs_of len }
{
    (len <= 1024 && len.is_power_of_two()).then_some(len.trailing_zeros())
}

// Whether each byte is 0 or 1.
fn is_binary(table: &[u8]) -> bool
    ensures { result ≡ binary table.now }
{
    table.iter().all(|byte| *byte < 2)
}

// The product of no input that drives one output.
fn start(output: u32) -> Cube
    requires { output < 32 }
    ensures { result ≡ start_of output }
{
    Cube::new(0xffff_ffff, 0xffff_ffff, 1 << output).unwrap()
}

// The last question, and the products.
fn place(table: &mut [u8], k: u32, output: u32, list: &mut [Cube]) -> Result<usize, ExpandRefusal>
    requires inputs { inputs_of (length table.old) ≡ Some k }
    requires bytes { binary table.old ≡ true }
    requires output { output < 32 }
    ensures { Expanded table.old output list.old result table.new list.new }
{
    let count = survey(table, k).count as usize;
    if count > list.len() {
        return Err(ExpandRefusal::Room);
    }
    Ok(emit(table, k, start(output), list))
}

// Writes the products of the table's cheapest expansion to the list from its start, each driving this output alone, and
// answers their number. The table is working memory, and is given back byte for byte.
pub fn expand(table: &mut [u8], output: u32, list: &mut [Cube]) -> Result<usize, ExpandRefusal>
    ensures { Expanded table.old output list.old result table.new list.new }
{
    let k = inputs_of(table.len()).ok_or(ExpandRefusal::Length)?;
    if !is_binary(table) {
        return Err(ExpandRefusal::Byte);
    }
    if output >= 32 {
        return Err(ExpandRefusal::Output);
    }
    place(table, k, output, list)
}
