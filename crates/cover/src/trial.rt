// The trial of one group: its link is made in the work memory, and adopted where a criterion says yes.
ghost use Rattle.std.specs.Prelude.{◌≡◌, ◌+◌, ◌<◌, ◌≤◌, true, false, length, if◌then◌else◌, nat_lt};
ghost use Rattle.esop.specs.Entering.{total_weight};
ghost use Rattle.esop.specs.Linking.{factorial as orders_of, link, span as span_of, without, IsGroup, result as made, says};
ghost use Rattle.esop.specs.Running.{spans};
ghost use Rattle.esop.specs.History.{replaced};
ghost use Rattle.cover.specs.Holding.{used, spare, held_of, SameLoan, IsEnough};
ghost use Rattle.cover.specs.Calls.{Entries};
ghost use Rattle.cover.specs.Trying.{group_of, Reads};

use crate::memory::{Cover, MOST, WORK};
use esop::criterion::{Criterion, Size};
use esop::product::Product;

// Two places of a cover, the products there, and an order number.
#[derive(Clone, Copy)]
pub(crate) struct Group<P> {
    pub(crate) first: usize,
    pub(crate) second: usize,
    pub(crate) a: P,
    pub(crate) b: P,
    pub(crate) number: usize,
}

// In how many orders `n` positions can stand. Spelt out: of five values a product over a range says no more.
fn factorial(n: usize) -> usize
    requires { n ≤ 4 }
    ensures { result ≡ orders_of n }
{
    match n {
        0 | 1 => 1,
        2 => 2,
        3 => 6,
        _ => 24,
    }
}

// How many groups a pair at a distance makes: one for each order of its positions, at distance 2 to 4.
pub(crate) fn orders(distance: usize) -> usize
    ensures { result ≡ (if spans distance then orders_of distance else 0) }
{
    match distance {
        2..=4 => factorial(distance),
        _ => 0,
    }
}

// What the products weigh together.
fn weigh<P: Product>(products: &[P]) -> u64
    requires { length products.now ≤ 962 }
    ensures { result ≡ total_weight P.meaning products.now }
{
    products
        .iter()
        .map(|product| u64::from(product.weight()))
        .sum()
}

// Whether a number is the order number of a group of a pair at a distance. It is apart from its only use, so that a
// wrong bound is found here.
pub(crate) fn is_order(number: usize, distance: usize) -> bool
    ensures { result ≡ nat_lt number (if spans distance then orders_of distance else 0) }
{
    number < orders(distance)
}

impl<P: Product> Group<P> {
    // The distance of the two products.
    pub(crate) fn span(self) -> usize
        ensures { result ≡ span_of P.meaning (group_of self) }
    {
        self.a.distance(self.b)
    }
}

impl<'a, P: Product, const N: usize> Cover<'a, P, N> {
    // The group of the products at two places, and an order number.
    pub(crate) fn group(&self, first: usize, second: usize, number: usize) -> Group<P>
        requires { (first < second) × (second < self.now.count) }
        ensures { Reads (used self.now) first second number (group_of result) }
    {
        let products = self.products();
        Group {
            first,
            second,
            a: products[first],
            b: products[second],
            number,
        }
    }

    // Takes the two products of a group out.
    fn take_out(&mut self, group: Group<P>)
        requires { (group.first < group.second) × (group.second < self.old.count) }
        ensures list { used self.new ≡ without (used self.old) (group_of group) }
        ensures two { self.new.count + 2 ≡ self.old.count }
        ensures loan { SameLoan self.old self.new }
    {
        self.remove(group.second);
        self.remove(group.first);
    }

    // Makes `products`, for each of which there is a place, those of the cover, in the same memory.
    fn adopt(&mut self, products: &[P])
        requires { (length products.now ≤ length self.old.places.now) × (length products.now ≤ N) }
        ensures held { held_of self.new ≡ replaced (held_of self.old) products.now }
        ensures loan { SameLoan self.old self.new }
    {
        self.places[..products.len()].copy_from_slice(products);
        self.count = products.len();
    }

    // How many products there are, and what they weigh together.
    fn size(&self) -> Size
        requires { N ≤ 962 }
        ensures count { result.count ≡ length (used self.now) }
        ensures weight { result.weight ≡ total_weight P.meaning (used self.now) }
    {
        let products = self.products();
        Size {
            count: products.len(),
            weight: weigh(products),
        }
    }

    // Enters the products of the link of a group. On the way from the one product to the other the positions that are
    // still to be taken are those at which the two still differ, so none of them has to be kept in mind.
    fn enter_link(&mut self, group: Group<P>)
        requires few { span_of P.meaning (group_of group) ≤ 4 }
        requires order { group.number < orders_of (span_of P.meaning (group_of group)) }
        requires places { span_of P.meaning (group_of group) ≤ spare self.old }
        ensures { Entries P.meaning (link P.meaning group.a group.b group.number) self.old self.new }
    {
        let mut from = group.a;
        let mut rest = group.number;
        for left in (0..group.span()).rev() {
            let orders = factorial(left);
            let position = from.difference(group.b, rest / orders).unwrap();
            let next = from.take(group.b, position);
            self.settle(from.join(next, position));
            rest %= orders;
            from = next;
        }
    }
}

impl<'a, P: Product> Cover<'a, P, MOST> {
    // The cover that the link of a group makes, in the work memory.
    fn tried<'w>(&self, work: &'w mut [P], group: Group<P>) -> Cover<'w, P, WORK>
        requires group { IsGroup P.meaning (used self.now) (group_of group) }
        requires work { IsEnough self.now (length work.old) }
        ensures list { used result ≡ made P.meaning (used self.now) (group_of group) }
        ensures lender { result.places.ghost_name ≡ work.entry.ghost_name }
    {
        let mut list = Cover::<P, WORK>::open(work);
        list.adopt(self.products());
        list.take_out(group);
        list.enter_link(group);
        list
    }

    // Whether the criterion says yes to the link of a group, which makes the list.
    fn approves<C: Criterion>(
        &self,
        criterion: &C,
        list: &Cover<'_, P, WORK>,
        group: Group<P>,
    ) -> bool
        requires { used list.now ≡ made P.meaning (used self.now) (group_of group) }
        ensures verdict { result ≡ says P.meaning (C.keeps criterion.now) (used self.now) (group_of group) }
        ensures fewer { result ≡ true → length (used list.now) ≤ self.now.count }
    {
        criterion.keeps(group.span(), self.size(), list.size())
    }

    // Tries a group: where the criterion says yes to its link, the cover is the one that it makes, else as it was.
    pub(crate) fn attempt<C: Criterion>(
        &mut self,
        criterion: &C,
        work: &mut [P],
        group: Group<P>,
    ) -> bool
        requires group { IsGroup P.meaning (used self.old) (group_of group) }
        requires work { IsEnough self.old (length work.old) }
        ensures verdict { result ≡ says P.meaning (C.keeps criterion.now) (used self.old) (group_of group) }
        ensures kept { result ≡ true → held_of self.new ≡ replaced (held_of self.old) (made P.meaning (used self.old) (group_of group)) }
        ensures same { result ≡ false → self.new ≡ self.old }
        ensures loan { SameLoan self.old self.new }
    {
        let list = self.tried(work, group);
        if !self.approves(criterion, &list, group) {
            return false;
        }
        self.adopt(list.products());
        true
    }
}
