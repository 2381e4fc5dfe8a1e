//! Where a large block may stand.
ghost use Rattle.std.specs.Prelude.{◌≤◌, ◌^◌, ℕ, MatchOption};
ghost use Rattle.hm_sizes.specs.Configs.{IsValid};
ghost use Rattle.hm_sizes.specs.declared.config.Config.{Config};
ghost use Rattle.hm_large_rules.specs.State.{State};
ghost use Rattle.hm_large_rules.specs.Rules.{IsCandidate, IsLeastCandidate};
ghost use Rattle.hm_large_book.specs.Spaces.{IsSpaceOf};

use hm_space::Space;

/// The most pages of a guard that are looked at: with more no block fits.
const MOST_GUARD: u64 = 1 << 32;

/// The lowest address at which a block of this size may stand with a guard of so many pages on each side, whatever
/// guard is stated.
pub fn least_address(space: &Space, size: u64, guard: u64, align: u64) -> Option<u64>
    requires some { 1 ≤ size }
    requires most { size ≤ 2 ^ 30 }
    ensures { (c : Config) (s : State) → IsValid c → IsSpaceOf c s space.now
        → MatchOption result ((a : ℕ) → IsCandidate c s align size guard a → ⊥) (IsLeastCandidate c s align size guard) }
{
    if guard > MOST_GUARD {
        return None;
    }
    let front = 4096 * guard;
    match space.find(size + 2 * front, align.max(4096), front) {
        Some(start) => Some(start + front),
        None => None,
    }
}
