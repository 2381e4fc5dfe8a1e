//! The rules of the large region: which histories are legal, as definitions in specs/, and laws of those
//! that are. Each law is the contract of a function with an empty body.
#![tactic(auto)]

ghost use Rattle.hm_large_rules.specs.Laws.{Prefixes, OneMore, OneLess, Sound, Apart, Delays, Zeroed};
ghost use Rattle.hm_large_rules.specs.LiveSizes.{LiveSizes};
ghost use Rattle.hm_large_rules.specs.OneEntry.{OneEntry};

mod numbers;

pub use numbers::{ARRAY_LENGTH, QUARANTINED_BELOW, RING_LENGTH, STREAM};

/// What a legal history begins with is legal, and it goes on with exactly the entries that are allowed.
pub fn legal_prefixes()
    ensures prefixes { Prefixes }
    ensures one_more { OneMore }
    ensures one_less { OneLess }
{}

/// After every legal history each block is whole pages and lies with its guards in the large space, and no
/// two that are live or in quarantine share an address, guards included.
pub fn sound_blocks()
    ensures { Sound }
{}

/// Two live blocks never overlap.
pub fn apart_blocks()
    ensures { Apart }
{}

/// Between the free of a block below 32 MiB and the giving of one that meets it, guards included, stand at
/// least 1,025 further frees of such blocks.
pub fn delayed_blocks()
    ensures { Delays }
{}

/// All bytes of a given block are zero.
pub fn zeroed_blocks()
    ensures { Zeroed }
{}

/// In whatever state an entry follows from who calls, the call, the count of page faults and whether a page
/// fault occurred.
pub fn one_entry()
    ensures { OneEntry }
{}

/// What the changes of a legal history make of sizes are those of the live blocks after it.
pub fn live_block_sizes()
    ensures { LiveSizes }
{}
