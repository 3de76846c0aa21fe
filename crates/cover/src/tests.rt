// The least kind and the least criterion, on a cover and by requests. They stand in the tests of `esop` too: no crate
// can use another's tests, and as public types of `esop` they would be a kind and a criterion that no caller wants.
ghost use Rattle.std.specs.Prelude.{false};
ghost use Rattle.std.proofs.Common.{rules};

use crate::entry::EnterRefusal;
use crate::memory::{Cover, MOST};
use crate::serve::{Answer, Request, serve};
use esop::criterion::{Criterion, Size};
use esop::product::Product;
use esop::refusal::Refusal;

// The kind with one product, which covers nothing.
#[derive(Clone, Copy)]
struct Single;

impl Product for Single {
    ghost meaning = { record {
      width = 1;
      value = λ _ _. 0;
      mixed = λ _ _ _. 0;
      taken = λ a _ _. a;
      joined = λ a _ _. a;
      weight = λ _. 0;
      covers = λ _ _. false;
    } };

    ghost lawful = { Prim.search rules };

    fn differs(self, _other: Single, _i: usize) -> bool {
        false
    }

    fn take(self, _other: Single, _i: usize) -> Single {
        self
    }

    fn join(self, _other: Single, _i: usize) -> Single {
        self
    }

    fn weight(self) -> u32 {
        0
    }

    fn covers(self, _point: u64) -> bool {
        false
    }
}

// The criterion that keeps nothing.
#[derive(Clone, Copy)]
struct Never;

impl Criterion for Never {
    ghost keeps = { λ _ _ _ _ _ _. false };

    ghost strict = { Prim.search rules };

    fn keeps(&self, _distance: usize, _before: Size, _after: Size) -> bool {
        false
    }
}

#[test]
fn two_cancel(rt: HostRuntime) {
    let mut places = [Single; 2];
    let mut cover = Cover::<Single, MOST>::open(&mut places);
    assert_eq!(rt; cover.enter(Single), Ok(1));
    assert_eq!(rt; cover.products().len(), 1);
    assert_eq!(rt; cover.enter(Single), Ok(0));
    assert_eq!(rt; cover.products().len(), 0);
    assert_eq!(rt; cover.room(), 2);
}

#[test]
fn no_place(rt: HostRuntime) {
    let mut places = [Single; 1];
    let mut cover = Cover::<Single, MOST>::open(&mut places);
    let refused = cover.enter_all(&[Single; 2]);
    assert_eq!(rt; refused, Err(EnterRefusal::NoPlace));
    assert_eq!(rt; EnterRefusal::NoPlace.number(), 1);
    assert_eq!(rt; cover.products().len(), 0);
}

#[test]
fn requests(rt: HostRuntime) {
    let mut places = [Single; 3];
    let mut work = [Single; 4];
    let mut answers = [Answer::Entered(Ok(9)); 3];
    let three = [Single; 3];
    let asked = [
        Request::EnterAll { from: 0, to: 3 },
        Request::Run {
            criterion: Never,
            budget: 5,
        },
        Request::Link {
            criterion: Never,
            first: 0,
            second: 0,
            order: 0,
        },
    ];
    let served = serve(&mut places, &three, &asked, &mut work, &mut answers);
    assert_eq!(rt; served, Ok(1));
}
