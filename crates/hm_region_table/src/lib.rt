//! The blocks of the large region by their addresses, in a hash table: open addressing, linear probing, at most half
//! of the cells in use, twice as many cells where half are, and entries that close up on removal. Contracts see a
//! finite map and the number of further entries for which there is room.
#![tactic(auto)]

mod closing;
mod entry;
mod probe;
mod table;
#[cfg(test)]
mod tests;

pub use entry::Block;
pub use table::RegionTable;
