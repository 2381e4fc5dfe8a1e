//! All regions of an allocator, each under a turn of its own.
#![tactic(auto)]

mod attempts;
mod build;
mod calls;
mod changes;
mod close;
mod enter;
mod heap;
mod homes;
mod laws;
mod pass;
mod realloc;
mod region;
mod request;
mod serve;
mod split;

pub use changes::Changes;
pub use close::{Closed, History};
pub use heap::Heap;
pub use laws::{apart_blocks, delayed_blocks, homes_of_blocks, lawful_fronts, zeroed_blocks};
pub use pass::Pass;
pub use region::Region;
