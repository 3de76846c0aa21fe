// Why a text is not loaded, not shrunk, or not printed.
ghost use Rattle.std.specs.Prelude.{◌≡◌};
ghost use Rattle.minimizer.specs.Refusals.{load_number, minimize_number, print_number};
ghost use Rattle.minimizer.specs.declared.refusal.LoadRefusal.TheVariants as load;
ghost use Rattle.minimizer.specs.declared.refusal.MinimizeRefusal.TheVariants as minimize;
ghost use Rattle.minimizer.specs.declared.refusal.PrintRefusal.TheVariants as print;

use esop::refusal::Refusal;
use reader::Refused;
use sheet::WriteRefusal;

#[derive(Clone, Copy, PartialEq, Eq, Debug)]
pub enum LoadRefusal {
    // the text was not read
    Unread,
    // the cover has fewer free places than the text has rows
    NoPlace,
}

impl Refusal for LoadRefusal {
    ghost number = { load_number };

    fn number(self) -> u8 {
        match self {
            LoadRefusal::Unread => 26,
            LoadRefusal::NoPlace => 1,
        }
    }
}

#[derive(Clone, Copy, PartialEq, Eq, Debug)]
pub enum MinimizeRefusal {
    // the text was not loaded
    Load(LoadRefusal),
    // the work memory has fewer places than the text has rows and two more
    NoWork,
}

impl Refusal for MinimizeRefusal {
    ghost number = { minimize_number };

    fn number(self) -> u8 {
        match self {
            MinimizeRefusal::Load(why) => why.number(),
            MinimizeRefusal::NoWork => 6,
        }
    }
}

// One type for every program, with the program's own refusals as a parameter, would have two `From`s that overlap.
#[derive(Clone, Copy, PartialEq, Eq, Debug)]
pub enum PrintRefusal {
    // no sheet was shrunk
    Minimize(MinimizeRefusal),
    // the printout was not written
    Write(WriteRefusal),
}

impl Refusal for PrintRefusal {
    ghost number = { print_number };

    fn number(self) -> u8 {
        match self {
            PrintRefusal::Minimize(why) => why.number(),
            PrintRefusal::Write(why) => why.number(),
        }
    }
}

impl From<Refused> for LoadRefusal {
    ghost from_gives = { λ _ e. e ≡ load.Unread };

    fn from(_refused: Refused) -> Self {
        Self::Unread
    }
}

impl From<LoadRefusal> for MinimizeRefusal {
    ghost from_gives = { λ why e. e ≡ minimize.Load why };

    fn from(why: LoadRefusal) -> Self {
        Self::Load(why)
    }
}

impl From<MinimizeRefusal> for PrintRefusal {
    ghost from_gives = { λ why e. e ≡ print.Minimize why };

    fn from(why: MinimizeRefusal) -> Self {
        Self::Minimize(why)
    }
}

impl From<WriteRefusal> for PrintRefusal {
    ghost from_gives = { λ why e. e ≡ print.Write why };

    fn from(why: WriteRefusal) -> Self {
        Self::Write(why)
    }
}
