//! Sizes and addresses: the size classes, the shapes of class regions, and their places. No call takes
//! memory.
#![tactic(auto)]

mod aligned;
mod class;
mod config;
mod home;
mod large;
mod laws;
mod shape;
mod table;

pub use aligned::class_aligned;
pub use class::{ClassId, Kind, block_size, class_of, raised};
pub use config::{Config, LEAST_SPACE, MOST_CLASS_REGION, MOST_LARGE_SPACE, PAGE};
pub use home::{Home, LARGE_START, home_of};
pub use large::large_size;
pub use laws::{
    aligned_laws, guard_law, home_laws, large_laws, place_laws, region_laws, size_laws,
};
pub use shape::{Shape, place_of, shape_of};
pub use table::CLASSES;

#[cfg(test)]
mod tests;
