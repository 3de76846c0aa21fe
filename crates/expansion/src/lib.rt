// The cheapest pseudo-Kronecker expansion of a truth table, as a list of cubes.
#![tactic(auto)]

mod call;
mod emit;
mod halves;
mod refusal;
mod split;
mod survey;

pub use call::{expand, inputs_of};
pub use refusal::ExpandRefusal;

#[cfg(test)]
mod tests;
