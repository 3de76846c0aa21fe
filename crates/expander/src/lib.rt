// From the line of a truth table to the bytes that are printed for it.
#![tactic(auto)]

mod call;
mod line;
mod refusal;

pub use call::print_expansion;
pub use refusal::PrintRefusal;

#[cfg(test)]
mod tests;
