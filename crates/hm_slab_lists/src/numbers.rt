//! The numbers of slabs: every (interval + 1)-th number is a guard's, and those between are given in order.
//! The record of a slab stands at its index among them, so that a guard has none.
ghost use Rattle.std.specs.Prelude.{◌≡◌, ◌≢◌, ◌<◌, ◌≤◌, ◌^◌, ℕ, IfSome, IfNone};
ghost use Rattle.hm_slab_lists.specs.Numbers.{nth_slab};

/// The number of the slab at an index.
pub(crate) fn number_of(index: usize, interval: u64) -> u64
    requires interval { 1 ≤ interval }
    requires index { index < 2 ^ 63 }
    ensures { result ≡ nth_slab interval index }
{
    index as u64 + index as u64 / interval
}

/// The index of the slab of a number: None for a guard.
pub(crate) fn index_of(number: u64, interval: u64) -> Option<usize>
    requires some { 1 ≤ interval }
    requires few { interval ≤ 8 }
    ensures found { IfSome result (λ index. nth_slab interval index ≡ number) }
    ensures guard { IfNone result ((index : ℕ) → nth_slab interval index ≢ number) }
{
    if number % (interval + 1) == interval {
        None
    } else {
        Some((number - number / (interval + 1)) as usize)
    }
}
