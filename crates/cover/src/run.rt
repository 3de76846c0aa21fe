// Runs: the groups of a cover are tried in turn, and after a kept link those of the new cover, from the first.
ghost use Rattle.std.specs.Prelude.{◌≡◌, ◌+◌, length};
ghost use Rattle.esop.specs.Running.{run};
ghost use Rattle.esop.specs.History.{reported, ran_by};
ghost use Rattle.cover.specs.Holding.{used, held_of, IsEnough};
ghost use Rattle.cover.specs.Calls.{Called};
ghost use Rattle.cover.specs.Recording.{run_number, run_answer, idle, Supplied};
ghost use Rattle.cover.specs.Rounds.{Fit, Stopped, Ended};

use crate::memory::{Cover, MOST};
use crate::record::Record;
use crate::trial::{Group, orders};
use esop::criterion::Criterion;
pub use esop::ending::End;
use esop::product::Product;
use esop::refusal::Refusal;

// Why there was no run.
#[derive(Clone, Copy, PartialEq, Eq, Debug)]
pub enum RunRefusal {
    NoWork,
}

// Each has the number of the question that was answered with no.
impl Refusal for RunRefusal {
    ghost number = { run_number };

    fn number(self) -> u8 {
        match self {
            RunRefusal::NoWork => 6,
        }
    }
}

impl<'a, P: Product> Cover<'a, P, MOST> {
    // How many places of work memory a link and a run need.
    pub fn work_needed(&self) -> usize
        ensures { result ≡ self.now.count + 2 }
    {
        self.count + 2
    }

    // Question 6: does the work memory have at least two places more than are in use? It is a yes or no, since a link
    // and a run refuse by types of their own.
    pub(crate) fn has_work(&self, work: usize) -> bool
        ensures { Supplied P.meaning self.now work result }
    {
        self.work_needed() <= work
    }

    // Tries the groups of the cover in turn, and answers how the run ends: the budget is spent, or no group is left. It
    // answers nothing where it kept a link, for the groups are then those of another cover.
    fn round<C: Criterion>(
        &mut self,
        criterion: &C,
        budget: u32,
        work: &mut [P],
        tally: &mut Record,
    ) -> Option<End>
        requires work { IsEnough self.old (length work.old) }
        requires record { Fit budget tally.old }
        ensures { Stopped P.meaning (C.keeps criterion.now) budget self.old tally.old work.old self.new tally.new work.new result }
    {
        for first in 0..self.count {
            for second in first + 1..self.count {
                let pair = self.group(first, second, 0);
                let distance = pair.span();
                for number in 0..orders(distance) {
                    if tally.tried() >= u64::from(budget) {
                        return Some(End::Spent);
                    }
                    let kept = self.attempt(criterion, work, Group { number, ..pair });
                    tally.note(distance, kept);
                    if kept {
                        return None;
                    }
                }
            }
        }
        Some(End::Finished)
    }

    // Goes round after round, until the budget is spent or the groups of a whole round were tried in vain.
    fn exhaust<C: Criterion>(&mut self, criterion: &C, budget: u32, work: &mut [P]) -> (End, Record)
        requires { IsEnough self.old (length work.old) }
        ensures { Ended (reported P.meaning (held_of self.old) (run P.meaning (C.keeps criterion.now) budget (used self.old))) self.old work.old self.new result.0 result.1 work.new }
    {
        let mut tally = Record::new();
        loop {
            if let Some(end) = self.round(criterion, budget, work, &mut tally) {
                return (end, tally);
            }
        }
    }

    // Tries groups by the criterion, `budget` of them at most, and answers how it ended and what was tried.
    pub fn run<C: Criterion>(
        &mut self,
        criterion: &C,
        budget: u32,
        work: &mut [P],
    ) -> Result<(End, Record), RunRefusal>
        ensures call { Called (ran_by P.meaning (C.keeps criterion.now) (held_of self.old) budget (length work.old)) (run_answer result) result self.old self.new }
        ensures work { idle result → work.new ≡ work.old }
    {
        if !self.has_work(work.len()) {
            return Err(RunRefusal::NoWork);
        }
        Ok(self.exhaust(criterion, budget, work))
    }
}
