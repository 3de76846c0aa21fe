// Shrinking: rows are entered into an empty cover, over which Reduce runs and then Refine.
ghost use Rattle.std.specs.Prelude.{◌≡◌, ◌≤◌, length, take};
ghost use Rattle.cover.specs.Serving.{said};
ghost use Rattle.minimizer.specs.Shrinking.{asks, OfRun, Tells, Roomy, Shrinks};

use cover::serve::{Answer, Request, serve};
use cube::Cube;
use esop::strategy::Strategy;
use sheet::RunSummary;

// How many groups each run may try.
const BUDGET: u32 = 1_000_000;

// The count of the products that are left, and the two runs. `Minimized` has them with the heading beside: it is
// public, and its fields are.
#[derive(Clone, Copy)]
pub struct Shrunk {
    pub(crate) count: usize,
    pub(crate) reduced: RunSummary,
    pub(crate) refined: RunSummary,
}

// A run in few words, from its answer.
fn summary(strategy: Strategy, answer: &Answer) -> RunSummary
    requires { OfRun (said answer.now) }
    ensures { Tells strategy (said answer.now) result }
{
    let Answer::Ran(Ok((end, record))) = answer else {
        unreachable()
    };
    RunSummary {
        strategy,
        tried: record.tried(),
        kept: record.kept(),
        end: *end,
    }
}

// The load of the first `rows` products of a list, and the two runs.
fn requests(rows: usize) -> [Request<Cube, Strategy>; 3]
    ensures { result ≡ asks rows }
{
    [
        Request::EnterAll { from: 0, to: rows },
        Request::Run {
            criterion: Strategy::Reduce,
            budget: BUDGET,
        },
        Request::Run {
            criterion: Strategy::Refine,
            budget: BUDGET,
        },
    ]
}

// Enters the first `rows` products of the list into a cover on the places, and runs over it.
pub(crate) fn shrink(places: &mut [Cube], list: &[Cube], rows: usize, work: &mut [Cube]) -> Shrunk
    requires within { rows ≤ length list.now }
    requires roomy { Roomy places.old (take rows list.now) (length work.old) }
    ensures shrinks { Shrinks places.old (take rows list.now) (length work.old) result places.new }
    ensures work { result.reduced.tried ≡ 0 → result.refined.tried ≡ 0 → work.new ≡ work.old }
{
    let requests = requests(rows);
    let mut answers = [Answer::Entered(Ok(0)); 3];
    let count = serve(places, list, &requests, work, &mut answers).unwrap();
    Shrunk {
        count,
        reduced: summary(Strategy::Reduce, &answers[1]),
        refined: summary(Strategy::Refine, &answers[2]),
    }
}
