// The line that a program prints for a run.
ghost use Rattle.std.specs.Prelude.{◌≡◌, ◌≤◌, length};
ghost use Rattle.sheet.specs.Pens.{Room, Wrote};
ghost use Rattle.sheet.specs.Reporting.{start_text, ending_text, run_text, past_within, kept_from};

use crate::pen::{Pen, decimal_len};
use crate::summary::RunSummary;
use esop::ending::End;
use esop::strategy::Strategy;

// What stands before the number of groups tried. The name stands in it whole: a pen writes bytes, and displays nothing.
fn start(strategy: Strategy) -> &'static [u8]
    ensures { result.now ≡ start_text strategy }
{
    match strategy {
        Strategy::Reduce => b"# reduce tried ",
        Strategy::Refine => b"# refine tried ",
    }
}

// The last word of the line, with what stands around it.
fn ending(end: End) -> &'static [u8]
    ensures { result.now ≡ ending_text end }
{
    match end {
        End::Finished => b" finished\n",
        End::Spent => b" spent\n",
    }
}

// How long the line of a run is.
#[tactic(auto, using(crate::proofs::RunLaws::run_length))]
pub fn run_len(run: RunSummary) -> usize
    ensures exact { result ≡ length (run_text run) }
    ensures short { result ≤ 71 }
{
    decimal_len(run.tried) + decimal_len(run.kept) + ending(run.end).len() + 21
}

impl Pen<'_> {
    // Writes the line of a run.
    #[tactic(auto, using(crate::proofs::RunLaws::run_length, crate::proofs::RunLaws::start_length))]
    fn run(&mut self, run: RunSummary)
        requires { Room self.old (run_text run) }
        ensures { Wrote self.old (run_text run) self.new }
    {
        self.text(start(run.strategy));
        self.decimal(run.tried);
        self.text(b" kept ");
        self.decimal(run.kept);
        self.text(ending(run.end));
    }
}

// Writes the line of a run from place `at` on, and answers the place past it; where it does not fit the memory,
// nothing is written. The place is told apart from the memory, since it may lie past its end.
pub fn write_run(memory: &mut [u8], at: usize, run: RunSummary) -> Option<usize>
    ensures answer { result ≡ past_within memory.old at (run_text run) }
    ensures text { memory.new ≡ kept_from memory.old at (run_text run) }
{
    let mut pen = Pen::new(memory, at);
    // The question of `write_refusal` too: a function over what is then written would be no plainer.
    if !pen.has_room(run_len(run)) {
        return None;
    }
    pen.run(run);
    Some(pen.at())
}
