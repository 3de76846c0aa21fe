// Examples of the calls that stand on many crates, as tests: each is proved, and then run.
#![tactic(auto)]

#[cfg(test)]
mod minimizing;
