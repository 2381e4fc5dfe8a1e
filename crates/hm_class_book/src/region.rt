//! The configuration and the numbers of a region.
use hm_sizes::{Config, Shape};

/// A region.
#[derive(Clone, Copy, Drop)]
pub struct Region {
    pub config: Config,
    pub shape: Shape,
}
