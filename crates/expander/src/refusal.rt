// Why a line gives no sheet. The minimizer has a type of the same shape: one type for both, with a program's own
// refusals as a parameter, would have two `From`s that overlap.
ghost use Rattle.std.specs.Prelude.{◌≡◌};
ghost use Rattle.expander.specs.Refusals.{number};
ghost use Rattle.expander.specs.declared.refusal.PrintRefusal.TheVariants.{Table, Sheet};

use esop::refusal::Refusal;
use expansion::ExpandRefusal;
use sheet::WriteRefusal;

#[derive(Clone, Copy, PartialEq, Eq, Debug)]
pub enum PrintRefusal {
    // its table was not expanded
    Table(ExpandRefusal),
    // the sheet of its products was not written
    Sheet(WriteRefusal),
}

impl Refusal for PrintRefusal {
    ghost number = { number };

    fn number(self) -> u8 {
        match self {
            PrintRefusal::Table(why) => why.number(),
            PrintRefusal::Sheet(why) => why.number(),
        }
    }
}

impl From<ExpandRefusal> for PrintRefusal {
    ghost from_gives = { λ why e. e ≡ Table why };

    fn from(why: ExpandRefusal) -> Self {
        Self::Table(why)
    }
}

impl From<WriteRefusal> for PrintRefusal {
    ghost from_gives = { λ why e. e ≡ Sheet why };

    fn from(why: WriteRefusal) -> Self {
        Self::Sheet(why)
    }
}
