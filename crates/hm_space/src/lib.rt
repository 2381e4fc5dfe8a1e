//! A space of addresses: which ranges of it are free, and where a block fits.
#![tactic(auto)]

mod free_list;
mod free_range;
mod space;
#[cfg(test)]
mod space_tests;

pub use free_range::FreeRange;
pub use space::Space;
