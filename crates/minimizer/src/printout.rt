// The printout of a sheet that was shrunk.
ghost use Rattle.std.specs.Prelude.{◌≡◌, ◌+◌, ◌≤◌, min, length};
ghost use Rattle.sheet.specs.Reporting.{run_text};
ghost use Rattle.sheet.specs.Writing.{written};
ghost use Rattle.minimizer.specs.Printout.{runs_text, printout_answer, printout_memory};

use cube::Cube;
use sheet::{RunSummary, WriteRefusal, run_len, write_run, write_sheet};

// Writes the lines of the two runs, for which there is room.
fn put_runs(memory: &mut [u8], reduced: RunSummary, refined: RunSummary)
    requires { length (run_text reduced) + length (run_text refined) ≤ length memory.old }
    ensures { memory.new ≡ written memory.old 0 (runs_text reduced refined) }
{
    let second = write_run(memory, 0, reduced).unwrap();
    write_run(memory, second, refined).unwrap();
}

// Writes the printout: the sheet past the first `at` bytes, and then the lines of the runs before it. Where the memory
// is too short for those, nothing is left for the sheet, and it is refused.
fn put_printout(
    memory: &mut [u8],
    at: usize,
    inputs: u32,
    outputs: u32,
    reduced: RunSummary,
    refined: RunSummary,
    products: &[Cube],
) -> Result<usize, WriteRefusal>
    requires { at ≡ min (length (run_text reduced) + length (run_text refined)) (length memory.old) }
    ensures answer { result ≡ printout_answer memory.old inputs outputs reduced refined products.now }
    ensures text { memory.new ≡ printout_memory memory.old inputs outputs reduced refined products.now }
{
    let len = write_sheet(&mut memory[at..], inputs, outputs, products)?;
    put_runs(memory, reduced, refined);
    Ok(at + len)
}

// Writes the lines of two runs and the sheet of the products that they left from the start of the memory, and answers
// the number of bytes. What is printed comes piece by piece, as the calls before it answer it.
pub fn write_printout(
    memory: &mut [u8],
    inputs: u32,
    outputs: u32,
    reduced: RunSummary,
    refined: RunSummary,
    products: &[Cube],
) -> Result<usize, WriteRefusal>
    ensures answer { result ≡ printout_answer memory.old inputs outputs reduced refined products.now }
    ensures text { memory.new ≡ printout_memory memory.old inputs outputs reduced refined products.now }
{
    let at = (run_len(reduced) + run_len(refined)).min(memory.len());
    put_printout(memory, at, inputs, outputs, reduced, refined, products)
}
