// Cubes: products of up to 32 inputs that drive a set of up to 32 outputs.
#![tactic(auto)]

pub mod cube;
mod kind;
mod look;
mod make;
#[cfg(test)]
mod tests;
mod words;

pub use cube::{Cube, CubeRefusal, Form};
