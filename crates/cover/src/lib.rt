// A cover in lent memory: products are entered into it, links are tried on it, and a list of requests is served.
#![tactic(auto)]

pub mod entry;
pub mod link;
pub mod memory;
pub mod record;
pub mod run;
pub mod serve;
#[cfg(test)]
mod tests;
mod trial;
