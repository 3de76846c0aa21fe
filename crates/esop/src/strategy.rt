// The two criteria as values of one type, for requests that mix them.
ghost use Rattle.std.specs.Prelude.{Some};
ghost use Rattle.esop.specs.Strategies.{test_of, name_of};
ghost use Rattle.esop.specs.CriterionLaws.{strategies_strict};

use crate::criterion::{Criterion, Reduce, Refine, Size};
use std::fmt;

#[derive(Clone, Copy, PartialEq, Eq, Debug)]
pub enum Strategy {
    Reduce,
    Refine,
}

impl Criterion for Strategy {
    ghost keeps = { test_of };

    ghost strict = { strategies_strict };

    fn keeps(&self, distance: usize, before: Size, after: Size) -> bool {
        match self {
            Strategy::Reduce => Reduce.keeps(distance, before, after),
            Strategy::Refine => Refine.keeps(distance, before, after),
        }
    }
}

// Its name.
impl fmt::Display for Strategy {
    ghost output = { λ s. Some (name_of s) };

    fn fmt<W: fmt::Write>(&self, f: &mut fmt::Formatter<W>) -> fmt::Result {
        f.write_str(match self {
            Strategy::Reduce => "reduce",
            Strategy::Refine => "refine",
        })
    }
}
