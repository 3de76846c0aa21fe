// How a run ends.

// A run ends because it has a group left to try and no budget, or because it has no group left to try.
#[derive(Clone, Copy, PartialEq, Eq, Debug)]
pub enum End {
    Spent,
    Finished,
}
