//! What the region keeps beside its pages and its history: its blocks by their addresses, its free ranges,
//! its quarantine and its words.
ghost use Rattle.std.specs.Prelude.{◌≡◌, ◌+◌, ◌*◌, ◌^◌, ◌<◌, ◌≤◌, ℕ, IfOk, IfSome, MatchOption, max};
ghost use Rattle.hm_sizes.specs.Configs.{IsValid};
ghost use Rattle.hm_sizes.specs.declared.config.Config.{Config};
ghost use Rattle.hm_large_rules.specs.State.{State, start};
ghost use Rattle.hm_large_rules.specs.Rules.{IsCandidate, IsLeastCandidate};
ghost use Rattle.hm_large.specs.Kept.{Shows};

use crate::block_table::BlockTable;
use hm_base::NoMemory;
use hm_choice::Stream;
use hm_large_rules::{ARRAY_LENGTH, RING_LENGTH, STREAM};
use hm_quarantine::Quarantine;
use hm_sizes::{Config, LARGE_START, PAGE};
use hm_space::Space;
use std::alloc::Global;

/// The blocks, the free ranges, the quarantine and the words of a large region.
#[derive(Drop)]
pub struct Store {
    pub blocks: BlockTable,
    pub space: Space,
    pub quarantine: Quarantine,
    pub words: Stream,
    /// How many live blocks have an entry kept for their free.
    pub owed: usize,
}

/// How many addresses a block has with its guards.
pub fn span(size: u64, guard: u64) -> u64
    requires size { size ≤ 2 ^ 32 }
    requires guard { guard ≤ 2 ^ 32 }
    ensures { result ≡ size + 2 * (4096 * guard) }
{
    size + 2 * (PAGE * guard)
}

impl Store {
    /// A store with no blocks, of which no word is drawn.
    pub fn build(alloc: Global, config: &Config, seed: u64) -> Result<Store, NoMemory>
        requires { IsValid config.now }
        ensures { IfOk result (Shows config.now seed start) }
    {
        let blocks = BlockTable::build(alloc)?;
        let space = Space::build(alloc, LARGE_START, config.large_space)?;
        let quarantine = Quarantine::build(alloc, ARRAY_LENGTH, RING_LENGTH)?;
        Ok(Store {
            blocks,
            space,
            quarantine,
            words: Stream::start(seed, STREAM),
            owed: 0,
        })
    }

    /// The lowest address at which a block of this size and guard fits.
    pub fn fit(&self, size: u64, guard: u64, align: u64) -> Option<u64>
        requires some { 1 ≤ size }
        requires most { size ≤ 2 ^ 32 }
        requires guard { guard ≤ 2 ^ 32 }
        ensures fits { (c : Config) (seed : ℕ) (s : State) → Shows c seed s self.now
            → MatchOption result ((a : ℕ) → IsCandidate c s align size guard a → ⊥)
            (IsLeastCandidate c s align size guard) }
        ensures below { IfSome result (λ a. a + size + 4096 * guard < 2 ^ 64) }
        ensures front { IfSome result (λ a. 4096 * guard ≤ a) }
    {
        let front = PAGE * guard;
        let start = self.space.find(span(size, guard), align.max(PAGE), front)?;
        Some(start + front)
    }
}
