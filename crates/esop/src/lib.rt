// What a kind of product is and what a criterion is, how a run ends, and what a refusal is; and what holds of covers of
// every kind, under every criterion.
#![tactic(auto)]

pub mod criterion;
pub mod ending;
pub mod laws;
pub mod product;
pub mod refusal;
pub mod strategy;
#[cfg(test)]
mod tests;
