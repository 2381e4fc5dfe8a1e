//! The slabs of a region: what is kept of each, and the lists of those that are partial, empty, full and retired,
//! linked in one vector. Contracts see lists of slab numbers and say nothing of links.
#![tactic(auto)]

mod chains;
mod ends;
mod links;
mod numbers;
mod slab;
mod slab_lists;
#[cfg(test)]
mod tests;

pub use slab_lists::{Place, SlabLists};
