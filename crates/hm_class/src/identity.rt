//! What no call of a class region changes.
ghost use Rattle.hm_class.specs.Identities.{IsServed};

use hm_sizes::{Config, Shape};

/// Which region it is, and where its slabs and slots lie.
#[derive(Clone, Copy, Drop)]
pub struct Identity {
    pub config: Config,
    /// The seed of all random words.
    pub seed: u64,
    pub arena: u32,
    pub shape: Shape,
    ghost served: { IsServed config seed arena shape },
}
