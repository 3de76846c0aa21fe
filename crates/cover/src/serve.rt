// Serving: a cover is opened on lent places, and a list of requests is answered.
ghost use Rattle.std.specs.Prelude.{◌≡◌, ◌<◌, ◌≤◌, true, length, take, is_ok, Ok, Err};
ghost use Rattle.std.specs.List.{between, AllByRecursion};
ghost use Rattle.esop.specs.History.{served};
ghost use Rattle.cover.specs.Holding.{held_of, SameLoan};
ghost use Rattle.cover.specs.Calls.{Replied};
ghost use Rattle.cover.specs.Serving.{asked, said, call_asked, call_said, Serves, Untouched};

use crate::entry::EnterRefusal;
use crate::link::LinkRefusal;
use crate::memory::{Cover, MOST};
use crate::record::Record;
use crate::run::{End, RunRefusal};
use esop::criterion::Criterion;
use esop::product::Product;

// What is asked of a cover. The products of a list entry are those of a lent list from place `from` up to, and not
// including, `to`, as far as the list goes. Each link and each run brings its own criterion.
#[derive(Clone, Copy, PartialEq, Eq, Debug)]
pub enum Request<P, C> {
    Enter(P),
    EnterAll {
        from: usize,
        to: usize,
    },
    Link {
        criterion: C,
        first: usize,
        second: usize,
        order: usize,
    },
    Run {
        criterion: C,
        budget: u32,
    },
}

// What the call that a request asks for answered.
#[derive(Clone, Copy, PartialEq, Eq, Debug)]
pub enum Answer {
    Entered(Result<usize, EnterRefusal>),
    Linked(Result<usize, LinkRefusal>),
    Ran(Result<(End, Record), RunRefusal>),
}

// Why no request was served.
#[derive(Clone, Copy, PartialEq, Eq, Debug)]
pub enum ServeRefusal {
    FewAnswers,
}

// The products from one place up to another, as far as the list goes.
fn part<P>(list: &[P], from: usize, to: usize) -> &[P]
    ensures { result.now ≡ between from to list.now }
{
    let end = to.min(list.len());
    let start = from.min(end);
    &list[start..end]
}

impl<'a, P: Product> Cover<'a, P, MOST> {
    // Makes the call that a request asks for.
    fn obey<C: Criterion>(&mut self, list: &[P], request: &Request<P, C>, work: &mut [P]) -> Answer
        ensures reply { Replied (served P.meaning C.keeps (held_of self.old) (asked list.now (length work.old) request.now)) (said result) self.new }
        ensures call { call_said result ≡ call_asked request.now }
        ensures work { Untouched result → work.new ≡ work.old }
        ensures loan { SameLoan self.old self.new }
    {
        match request {
            Request::Enter(p) => Answer::Entered(self.enter(*p)),
            Request::EnterAll { from, to } => Answer::Entered(self.enter_all(part(
                list, *from, *to,
            ))),
            Request::Link {
                criterion,
                first,
                second,
                order,
            } => Answer::Linked(self.link(criterion, work, *first, *second, *order)),
            Request::Run { criterion, budget } => Answer::Ran(self.run(criterion, *budget, work)),
        }
    }
}

// Answers the requests in turn, for each of which there is a place for its answer. Returns the count that the cover
// has in the end.
fn serve_all<P: Product, C: Criterion>(
    places: &mut [P],
    list: &[P],
    requests: &[Request<P, C>],
    work: &mut [P],
    answers: &mut [Answer],
) -> usize
    requires { length requests.now ≤ length answers.old }
    ensures all { Serves P.meaning C.keeps places.old list.now requests.now (length work.old) answers.old result places.new answers.new }
    ensures work { AllByRecursion Untouched (take (length requests.now) answers.new) → work.new ≡ work.old }
{
    let mut cover = Cover::<P, MOST>::open(places);
    // By index: what a loop over `answers.iter_mut()`, zipped with the requests, writes is not known after it.
    for (i, request) in requests.iter().enumerate() {
        answers[i] = cover.obey(list, request, work);
    }
    cover.count
}

// Opens a cover on the places, answers the requests in turn, and returns the count that the cover has in the end. It
// writes each answer to the memory lent for them; where that is too short for the requests, it does nothing.
pub fn serve<P: Product, C: Criterion>(
    places: &mut [P],
    list: &[P],
    requests: &[Request<P, C>],
    work: &mut [P],
    answers: &mut [Answer],
) -> Result<usize, ServeRefusal>
    ensures all { elim result [
      | Ok n ↦ (length requests.now ≤ length answers.old) × Serves P.meaning C.keeps places.old list.now requests.now (length work.old) answers.old n places.new answers.new
      | Err e ↦ (length answers.old < length requests.now) × (places.new ≡ places.old) × (work.new ≡ work.old) × (answers.new ≡ answers.old)
    ] }
    ensures work { is_ok result ≡ true → AllByRecursion Untouched (take (length requests.now) answers.new) → work.new ≡ work.old }
{
    if answers.len() < requests.len() {
        return Err(ServeRefusal::FewAnswers);
    }
    Ok(serve_all(places, list, requests, work, answers))
}
