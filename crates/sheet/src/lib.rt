// Sheets: lists of products as text, written into memory that the caller lends.
#![tactic(auto)]

pub mod heading;
mod pen;
mod put;
mod refuse;
mod report;
pub mod state;
pub mod summary;
#[cfg(test)]
mod tests;
mod whole;
mod write;

pub use heading::Heading;
pub use refuse::{write_answer, write_refusal};
pub use report::{run_len, write_run};
pub use state::{Blank, Closed, Headed, WriteRefusal};
pub use summary::RunSummary;
pub use whole::write_sheet;
