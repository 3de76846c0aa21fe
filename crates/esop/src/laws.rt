// The theorems on covers, links, runs and histories, for every kind of product and every criterion.
ghost use Rattle.std.specs.Prelude.{◌≡◌};
ghost use Rattle.esop.specs.Claims.{CoverLaws};

use crate::criterion::Criterion;
use crate::product::Product;

// Does nothing: its contract is the theorems, which are proved once for all kinds and criteria.
fn proved<P: Product, C: Criterion>()
    ensures { CoverLaws P.meaning C.keeps }
{}

// Answers 0. The theorems hold wherever it is called.
pub fn cover_laws<P: Product, C: Criterion>() -> u8
    ensures laws { CoverLaws P.meaning C.keeps }
    ensures zero { result ≡ 0 }
{
    proved::<P, C>();
    0
}
