// The three ways to split a function f at an input x into halves f0 (x = 0) and f1 (x = 1), f2 being their
// exclusive or.
ghost use Rattle.std.specs.Prelude.{◌≡◌, ◌≤◌, Some};
ghost use Rattle.expansion.specs.Splits.{cheapest, spent, first_form, second_form, first_from};

use cube::Form;

#[derive(Clone, Copy, PartialEq, Eq, Debug)]
pub(crate) enum Split {
    // f = x̄ f0 ⊕ x f1
    Shannon,
    // f = f0 ⊕ x f2
    PositiveDavio,
    // f = f1 ⊕ x̄ f2
    NegativeDavio,
}

// How a table is split, and how many products it needs: where it is split, the two parts that are kept together.
#[derive(Clone, Copy)]
pub(crate) struct Choice {
    // none in a table of one byte
    pub(crate) split: Option<Split>,
    pub(crate) count: u32,
}

// Leaves out the part that needs most: of equals f0 first, then f1.
pub(crate) fn choose(low: u32, high: u32, sum: u32) -> Choice
    requires { (low ≤ 1024) × (high ≤ 1024) × (sum ≤ 1024) }
    ensures split { result.split ≡ Some (cheapest low high sum) }
    ensures count { result.count ≡ spent (cheapest low high sum) low high sum }
{
    let (split, count) = if high <= low && sum <= low {
        (Split::NegativeDavio, high + sum)
    } else if low <= high && sum <= high {
        (Split::PositiveDavio, low + sum)
    } else {
        (Split::Shannon, low + high)
    };
    Choice {
        split: Some(split),
        count,
    }
}

impl Split {
    // The form of x in the products of the first summand.
    pub(crate) fn first_form(self) -> Form
        ensures { result ≡ first_form self }
    {
        match self {
            Split::Shannon => Form::Negative,
            Split::PositiveDavio | Split::NegativeDavio => Form::Absent,
        }
    }

    // The form of x in the products of the second summand.
    pub(crate) fn second_form(self) -> Form
        ensures { result ≡ second_form self }
    {
        match self {
            Split::Shannon | Split::PositiveDavio => Form::Positive,
            Split::NegativeDavio => Form::Negative,
        }
    }

    // Where the first summand's part begins in a table of two halves.
    pub(crate) fn first_from(self, half: usize) -> usize
        ensures { result ≡ first_from self half }
    {
        match self {
            Split::Shannon | Split::PositiveDavio => 0,
            Split::NegativeDavio => half,
        }
    }
}
