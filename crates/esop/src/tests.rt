// The least kind and the least criterion, which show that a new one of either asks for nothing else in this crate. The
// tests of `cover` have the same two, since no crate can use another's tests.
ghost use Rattle.std.specs.Prelude.{false};
ghost use Rattle.std.proofs.Common.{rules};

use crate::criterion::{Criterion, Reduce, Refine, Size};
use crate::product::Product;

// The kind with one product, which covers nothing.
#[derive(Clone, Copy)]
struct Single;

impl Product for Single {
    ghost meaning = { record {
      width = 1;
      value = λ _ _. 0;
      mixed = λ _ _ _. 0;
      taken = λ a _ _. a;
      joined = λ a _ _. a;
      weight = λ _. 0;
      covers = λ _ _. false;
    } };

    ghost lawful = { Prim.search rules };

    fn differs(self, _other: Single, _i: usize) -> bool {
        false
    }

    fn take(self, _other: Single, _i: usize) -> Single {
        self
    }

    fn join(self, _other: Single, _i: usize) -> Single {
        self
    }

    fn weight(self) -> u32 {
        0
    }

    fn covers(self, _point: u64) -> bool {
        false
    }
}

// The criterion that keeps nothing.
#[derive(Clone, Copy)]
struct Never;

impl Criterion for Never {
    ghost keeps = { λ _ _ _ _ _ _. false };

    ghost strict = { Prim.search rules };

    fn keeps(&self, _distance: usize, _before: Size, _after: Size) -> bool {
        false
    }
}

fn size(count: usize, weight: u64) -> Size {
    Size { count, weight }
}

#[test]
fn one_product(rt: HostRuntime) {
    assert!(rt; !Single.differs(Single, 0));
    assert_eq!(rt; Single.distance(Single), 0);
    assert_eq!(rt; Single.difference(Single, 0), None);
    assert_eq!(rt; Single.take(Single, 0).join(Single, 0).weight(), 0);
    assert!(rt; !Single.covers(7));
}

#[test]
fn nothing_kept(rt: HostRuntime) {
    assert!(rt; !Never.keeps(2, size(2, 9), size(1, 1)));
}

#[test]
fn reduces(rt: HostRuntime) {
    assert!(rt; Reduce.keeps(2, size(5, 9), size(4, 12)));
    assert!(rt; !Reduce.keeps(2, size(5, 9), size(5, 8)));
    assert!(rt; Reduce.keeps(3, size(5, 9), size(5, 8)));
    assert!(rt; Reduce.keeps(4, size(5, 9), size(5, 8)));
    assert!(rt; !Reduce.keeps(4, size(5, 9), size(5, 9)));
    assert!(rt; !Reduce.keeps(5, size(5, 9), size(4, 8)));
}

#[test]
fn refines(rt: HostRuntime) {
    assert!(rt; Refine.keeps(2, size(5, 9), size(5, 8)));
    assert!(rt; Refine.keeps(3, size(5, 9), size(4, 8)));
    assert!(rt; !Refine.keeps(3, size(5, 9), size(4, 9)));
    assert!(rt; !Refine.keeps(3, size(5, 9), size(6, 8)));
    assert!(rt; !Refine.keeps(4, size(5, 9), size(4, 8)));
}
