// Linking: one group is tried at the caller's wish.
ghost use Rattle.std.specs.Prelude.{◌≡◌, true, length};
ghost use Rattle.esop.specs.History.{linked};
ghost use Rattle.cover.specs.Holding.{held_of};
ghost use Rattle.cover.specs.Calls.{Called};
ghost use Rattle.cover.specs.Trying.{link_number, link_answer, untried, Questioned};

use crate::memory::{Cover, MOST};
use crate::trial::{Group, is_order, orders};
use esop::criterion::Criterion;
use esop::product::Product;
use esop::refusal::Refusal;

// Why a link was not kept.
#[derive(Clone, Copy, PartialEq, Eq, Debug)]
pub enum LinkRefusal {
    NotOrdered,
    NotInUse,
    NoGroup,
    NoOrder,
    NoWork,
    NotKept,
}

// Each has the number of the question that was answered with no.
impl Refusal for LinkRefusal {
    ghost number = { link_number };

    fn number(self) -> u8 {
        match self {
            LinkRefusal::NotOrdered => 2,
            LinkRefusal::NotInUse => 3,
            LinkRefusal::NoGroup => 4,
            LinkRefusal::NoOrder => 5,
            LinkRefusal::NoWork => 6,
            LinkRefusal::NotKept => 7,
        }
    }
}

impl<'a, P: Product> Cover<'a, P, MOST> {
    // Questions 2 to 6, of a link of two places with an order number, in `work` places of work memory.
    fn question(
        &self,
        work: usize,
        first: usize,
        second: usize,
        number: usize,
    ) -> Result<Group<P>, LinkRefusal>
        ensures { Questioned P.meaning self.now work first second number result }
    {
        if first >= second {
            return Err(LinkRefusal::NotOrdered);
        }
        if second >= self.count {
            return Err(LinkRefusal::NotInUse);
        }
        let group = self.group(first, second, number);
        let distance = group.span();
        if orders(distance) == 0 {
            return Err(LinkRefusal::NoGroup);
        }
        if !is_order(number, distance) {
            return Err(LinkRefusal::NoOrder);
        }
        if !self.has_work(work) {
            return Err(LinkRefusal::NoWork);
        }
        Ok(group)
    }

    // Links the products at two places by an order number, and answers the new count. As one value the three numbers
    // are a request, which `serve` takes.
    pub fn link<C: Criterion>(
        &mut self,
        criterion: &C,
        work: &mut [P],
        first: usize,
        second: usize,
        number: usize,
    ) -> Result<usize, LinkRefusal>
        ensures call { Called (linked P.meaning (C.keeps criterion.now) (held_of self.old) first second number (length work.old)) (link_answer result) result self.old self.new }
        ensures work { untried result ≡ true → work.new ≡ work.old }
    {
        let group = self.question(work.len(), first, second, number)?;
        if !self.attempt(criterion, work, group) {
            return Err(LinkRefusal::NotKept);
        }
        Ok(self.count)
    }
}
