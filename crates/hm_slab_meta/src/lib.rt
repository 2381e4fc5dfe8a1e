//! What is kept of one slab outside it: how each of its slots is used, in four bit maps, and its canary.
//! Contracts see a list of uses. No call takes memory.
#![tactic(auto)]

mod bit_map;
mod slab_meta;
#[cfg(test)]
mod tests;
mod word;

pub use slab_meta::{SlabMeta, SlotState};
