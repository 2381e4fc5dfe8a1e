//! The numbers of calls, which a list may name to fail.
ghost use Rattle.std.specs.Prelude.{◌≡◌, ◌≤◌};
ghost use Rattle.hm_outside.specs.Counts.{raised};
ghost use Rattle.hm_fakes.specs.Numbered.{is_named};

use hm_outside::raise;

/// Numbers a call, and says whether the list names it.
pub(crate) fn number_call(fail_calls: &[u64], calls: &mut u64) -> bool
    ensures number { calls.new ≡ raised calls.old }
    ensures later { calls.old ≤ calls.new }
    ensures named { result ≡ is_named fail_calls.now calls.new }
{
    raise(calls);
    *calls < u64::MAX && fail_calls.contains(calls)
}
