// Criteria: which links are kept.
ghost use Rattle.std.specs.Prelude.{◌≡◌};
ghost use Rattle.esop.specs.Criterion.{Test, Strict, reduce, refine};
ghost use Rattle.esop.specs.CriterionLaws.{reduce_strict, refine_strict};

// How many products a cover has, and what they weigh together. Of two sizes the lower has fewer products, or as many
// that weigh less.
#[derive(Clone, Copy, PartialEq, Eq, PartialOrd, Ord, Debug)]
pub struct Size {
    pub count: usize,
    pub weight: u64,
}

pub trait Criterion {
    // What the criterion says for a distance, a count and a weight before, and a count and a weight after.
    ghost keeps: { Self → Test };

    // Whether to keep a link of two products at `distance` that takes a cover from one size to another.
    fn keeps(&self, distance: usize, before: Size, after: Size) -> bool
        ensures { result ≡ keeps self.now distance before.count before.weight after.count after.weight };

    // A yes only where the count falls, or stays while the weight falls: so no cover comes back, and a run ends.
    ghost strict: { (c : Self) → Strict (keeps c) };
}

// Fewer products before all; at distance 3 and 4 also a lighter cover of as many.
#[derive(Clone, Copy)]
pub struct Reduce;

// A lighter cover of no more products, at distance 2 and 3.
#[derive(Clone, Copy)]
pub struct Refine;

impl Criterion for Reduce {
    ghost keeps = { λ _. reduce };

    ghost strict = { λ _. reduce_strict };

    fn keeps(&self, distance: usize, before: Size, after: Size) -> bool {
        match distance {
            2 => after.count < before.count,
            3 | 4 => after < before,
            _ => false,
        }
    }
}

impl Criterion for Refine {
    ghost keeps = { λ _. refine };

    ghost strict = { λ _. refine_strict };

    fn keeps(&self, distance: usize, before: Size, after: Size) -> bool {
        match distance {
            2 | 3 => after.count <= before.count && after.weight < before.weight,
            _ => false,
        }
    }
}
