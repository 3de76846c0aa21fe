// Why a table was not expanded.
ghost use Rattle.expansion.specs.Refusals;

use esop::refusal::Refusal;

#[derive(Clone, Copy, PartialEq, Eq, Debug)]
pub enum ExpandRefusal {
    Length,
    Byte,
    Output,
    Room,
}

impl Refusal for ExpandRefusal {
    ghost number = { Refusals.number };

    fn number(self) -> u8 {
        match self {
            ExpandRefusal::Length => 13,
            ExpandRefusal::Byte => 14,
            ExpandRefusal::Output => 15,
            ExpandRefusal::Room => 16,
        }
    }
}
