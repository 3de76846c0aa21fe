// The worked examples that are proved: what the definitions give for them, by computing them.
ghost use Rattle.std.specs.Prelude.{◌≡◌};
ghost use Rattle.worked.specs.Worked.{WorkedExamples};

// Does nothing: its contract is the examples.
fn proved()
    ensures { WorkedExamples }
{}

// Answers how many they are. They hold wherever it is called.
pub fn worked_examples() -> usize
    ensures examples { WorkedExamples }
    ensures count { result ≡ 15 }
{
    proved();
    15
}
