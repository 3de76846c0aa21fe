// Block products: eight truth tables of three inputs each, 24 inputs in all.
#![tactic(auto)]

pub mod block;
mod make;
mod packing;
mod product;
mod sizes;
#[cfg(test)]
mod tests;

pub use block::{BlockProduct, BlockRefusal, PackRefusal};
pub use packing::pack;
pub use sizes::size;
