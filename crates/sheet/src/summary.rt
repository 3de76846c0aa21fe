// What is printed of a run.
use esop::ending::End;
use esop::strategy::Strategy;

// By which strategy a run went, how many groups it tried, of how many it kept the link, and how it
// ended.
#[derive(Clone, Copy, PartialEq, Eq, Debug)]
pub struct RunSummary {
    pub strategy: Strategy,
    pub tried: u64,
    pub kept: u64,
    pub end: End,
}
