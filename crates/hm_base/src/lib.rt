//! What every crate speaks of: want of memory, lists, the numbers of regions, and how bytes are written.
#![tactic(auto)]

mod list;
mod memory;
mod region;

pub use list::List;
pub use memory::NoMemory;
pub use region::RegionId;
