// From the text of a sheet to its shrunk sheet: loading, the two runs, and what is printed.
#![tactic(auto)]

mod call;
mod loader;
mod printout;
pub mod refusal;
pub mod report;
mod shrink;
mod whole;

pub use call::print_minimized;
pub use loader::load;
pub use printout::write_printout;
pub use refusal::{LoadRefusal, MinimizeRefusal, PrintRefusal};
pub use report::{Loaded, Minimized};
pub use whole::minimize;
