// Reading sheets: text that is judged whole, line by line, before its products go into a list that the caller lends.
#![tactic(auto)]

mod line;
mod number;
mod read;
mod row;
pub mod state;
#[cfg(test)]
mod tests;
mod turn;

pub use read::{judge_sheet, read_sheet};
pub use state::{Heading, ReadRefusal, Refused};
