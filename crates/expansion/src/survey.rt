// Counting: what each part needs, and so how a table is split.
ghost use Rattle.std.specs.Prelude.{◌≡◌};
ghost use Rattle.expansion.specs.Tables.{HasInputs};
ghost use Rattle.expansion.specs.Expansions.{needed, split_at};

use crate::halves::fold;
use crate::split::{Choice, choose};

// How a table of k inputs is split, and how many products it needs. The table is given back byte for byte. Its length
// tells k too, but k is what counting and emitting go down by.
#[tactic(auto, using(crate::proofs::SplitLaws::needed_leaf))]
pub(crate) fn survey(table: &mut [u8], k: u32) -> Choice
    requires { HasInputs k table.old }
    ensures split { result.split ≡ split_at k table.old }
    ensures count { result.count ≡ needed k table.old }
    ensures table { table.new ≡ table.old }
{
    if k == 0 {
        return Choice {
            split: None,
            count: u32::from(table[0] == 1),
        };
    }
    let half = table.len() / 2;
    let (lower, upper) = table.split_at_mut(half);
    let low = survey(lower, k - 1).count;
    let high = survey(upper, k - 1).count;
    fold(upper, lower);
    let sum = survey(upper, k - 1).count;
    fold(upper, lower);
    choose(low, high, sum)
}
