// What is answered for a text.
use reader::Heading;
use sheet::RunSummary;

// The numbers of the heading of a text that was loaded, and the count of the cover after it.
#[derive(Clone, Copy, PartialEq, Eq, Debug)]
pub struct Loaded {
    pub heading: Heading,
    pub count: usize,
}

// The numbers of the heading of a text that was shrunk, the count of the products that are left, and the two runs.
#[derive(Clone, Copy, PartialEq, Eq, Debug)]
pub struct Minimized {
    pub heading: Heading,
    pub count: usize,
    pub reduced: RunSummary,
    pub refined: RunSummary,
}
