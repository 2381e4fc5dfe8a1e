//! What is asked of each entry, whatever its reply.
ghost use Rattle.std.specs.Prelude.{◌↔◌, IsTrue};
ghost use Rattle.hm_model.specs.Calls.{IsRange};
ghost use Rattle.hm_model.specs.Entries.{AreDraws};
ghost use Rattle.hm_sizes.specs.Aligned.{IsAlignment};
ghost use Rattle.hm_large_rules.specs.Rules.{Asks};
ghost use Rattle.hm_large_book.specs.Reached.{IsFormed};

use hm_model::{Call, Draws, Entry};
use hm_sizes::class_aligned;

/// The greatest size of a request, and of a range that is read or written.
const MOST: u64 = 1 << 30;

/// Below this a range begins that is read or written.
const RANGES_BELOW: u64 = 1 << 47;

// Whether words past those that were drawn are 0.
fn are_draws(draws: Draws) -> bool
    ensures { IsTrue result ↔ AreDraws draws }
{
    ((draws.used >= 1) | (draws.w0 == 0))
        & ((draws.used >= 2) | (draws.w1 == 0))
        & ((draws.used >= 3) | (draws.w2 == 0))
}

// Whether a range may be read or written.
fn is_range(addr: u64, len: u64) -> bool
    ensures { IsTrue result ↔ IsRange addr len }
{
    (1 <= len) & (len <= MOST) & (addr < RANGES_BELOW)
}

// Whether this is a power of two up to 2^21.
fn is_alignment(align: u64) -> bool
    ensures { IsTrue result ↔ IsAlignment align }
{
    class_aligned(0, align).is_some()
}

// Whether a call's arguments are as it asks.
fn asks(call: &Call) -> bool
    ensures { IsTrue result ↔ Asks call.now }
{
    match call {
        Call::Allot { asked, align } => (*asked <= MOST) & is_alignment(*align),
        Call::Fetch { addr, len } => is_range(*addr, *len),
        Call::Fill { addr, runs } => is_range(*addr, runs.len()),
        Call::GiveBack { addr: _, stated: _ } | Call::Measure { addr: _ } => true,
    }
}

/// Whether an entry's words, its call and its counts of page faults are as each entry's are.
pub(crate) fn is_formed(entry: &Entry, faults: u64) -> bool
    ensures { IsTrue result ↔ IsFormed faults entry.now }
{
    let draws = are_draws(entry.draws);
    let asks = asks(&entry.call);
    let counts = (entry.faults_before == faults) & (entry.faults_before <= entry.faults_after);
    draws & asks & counts
}
