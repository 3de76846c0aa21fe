// Entering products.
ghost use Rattle.std.specs.Prelude.{◌≡◌, ◌+◌, ◌-◌, ◌<◌, ◌≤◌, [], ◌∷◌, length, drop, is_ok, nat_le, slice_get, IfErr, OnOk};
ghost use Rattle.std.specs.List.{remove};
ghost use Rattle.esop.specs.Entering.{seek};
ghost use Rattle.esop.specs.History.{admitted, room};
ghost use Rattle.cover.specs.Holding.{used, free, spare, held_of, SameLoan};
ghost use Rattle.cover.specs.Calls.{Entries, Called, entry_number, entry_answer};

use crate::memory::{Cover, MOST};
use esop::product::Product;
use esop::refusal::Refusal;

// Why products were not entered.
#[derive(Clone, Copy, PartialEq, Eq, Debug)]
pub enum EnterRefusal {
    NoPlace,
}

// Each has the number of the question that was answered with no.
impl Refusal for EnterRefusal {
    ghost number = { entry_number };

    fn number(self) -> u8 {
        match self {
            EnterRefusal::NoPlace => 1,
        }
    }
}

impl<'a, P: Product, const N: usize> Cover<'a, P, N> {
    // An empty cover in the memory lent.
    pub fn open(places: &'a mut [P]) -> Cover<'a, P, N>
        ensures empty { result.count ≡ 0 }
        ensures memory { result.places.now ≡ places.old }
        ensures lender { result.places.ghost_name ≡ places.entry.ghost_name }
    {
        Cover { places, count: 0 }
    }

    // The products, by place.
    pub fn products(&self) -> &[P]
        ensures { result.now ≡ used self.now }
    {
        &self.places[..self.count]
    }

    // How many places can still be taken.
    pub fn room(&self) -> usize
        ensures { result ≡ spare self.now }
    {
        self.places.len().min(N) - self.count
    }

    // The place of the first product at distance 0 or 1 from `p`.
    fn seek(&self, p: P) -> Option<usize>
        ensures { result ≡ seek P.meaning p (used self.now) }
    {
        self.products().iter().position(|x| p.distance(*x) <= 1)
    }

    // Takes the product at place `i` out, and moves those after it up by one.
    #[tactic(auto, using(crate::proofs::Shifting::shifted_used, crate::proofs::Shifting::shifted_free))]
    pub(crate) fn remove(&mut self, i: usize) -> P
        requires { i < self.old.count }
        ensures product { slice_get (used self.old) i ≡ Some result }
        ensures list { used self.new ≡ remove (used self.old) i }
        ensures rest { free self.new ≡ drop (self.old.count - 1) self.old.places.now }
        ensures one { self.new.count ≡ self.old.count - 1 }
        ensures loan { SameLoan self.old self.new }
    {
        let product = self.places[i];
        self.places.copy_within(i + 1..self.count, i);
        self.count -= 1;
        product
    }

    // Enters `p`, for which there is a place. A product at distance 0 goes, and `p` with it; one at distance 1 gives
    // way to the join of the two, with which all begins again.
    pub(crate) fn settle(&mut self, mut p: P)
        requires { 1 ≤ spare self.old }
        ensures { Entries P.meaning (p ∷ []) self.old self.new }
    {
        while let Some(i) = self.seek(p) {
            let q = self.remove(i);
            let Some(d) = p.difference(q, 0) else {
                return;
            };
            p = p.join(q, d);
        }
        self.places[self.count] = p;
        self.count += 1;
    }

    // Enters the products in turn. There is a place for each.
    fn settle_all(&mut self, ps: &[P])
        requires { length ps.now ≤ spare self.old }
        ensures { Entries P.meaning ps.now self.old self.new }
    {
        for p in ps {
            self.settle(*p);
        }
    }
}

impl<'a, P: Product> Cover<'a, P, MOST> {
    // Question 1: is there a place for each of `more` products?
    fn admit(&self, more: usize) -> Result<(), EnterRefusal>
        ensures question { is_ok result ≡ nat_le (length (used self.now) + more) (room (held_of self.now)) }
        ensures places { OnOk result (more ≤ spare self.now) }
        ensures number { IfErr result (λ e. entry_number e ≡ 1) }
    {
        if self.room() < more {
            return Err(EnterRefusal::NoPlace);
        }
        Ok(())
    }

    // Enters `p`, and answers the new count. Not by the call below: a slice of one owes that a product of the kind fits
    // in memory, which stays open.
    pub fn enter(&mut self, p: P) -> Result<usize, EnterRefusal>
        ensures { Called (admitted P.meaning (held_of self.old) (p ∷ [])) (entry_answer result) result self.old self.new }
    {
        self.admit(1)?;
        self.settle(p);
        Ok(self.count)
    }

    // Enters the products in turn, and answers the new count; or enters none, where there is no place for each.
    pub fn enter_all(&mut self, ps: &[P]) -> Result<usize, EnterRefusal>
        ensures { Called (admitted P.meaning (held_of self.old) ps.now) (entry_answer result) result self.old self.new }
    {
        self.admit(ps.len())?;
        self.settle_all(ps);
        Ok(self.count)
    }
}
