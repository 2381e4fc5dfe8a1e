//! The large region: its blocks with their guards, its quarantine, its pages, and the history of its calls.
#![tactic(auto)]

mod access;
mod block_table;
mod give;
mod heap;
mod judge;
mod replies;
mod store;
mod take_back;

pub use heap::LargeHeap;
