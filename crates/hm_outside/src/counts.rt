//! Counts of faults.
ghost use Rattle.std.specs.Prelude.{◌≡◌, ◌≤◌};
ghost use Rattle.hm_outside.specs.Counts.{raised};

/// One more, and not past the last value.
pub fn raise(count: &mut u64)
    ensures after { count.new ≡ raised count.old }
    ensures later { count.old ≤ count.new }
{
    *count = count.saturating_add(1);
}
