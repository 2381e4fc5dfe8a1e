//! One call of a region and its reply, with what was chosen and drawn: an entry of the region's history.
ghost use Rattle.std.specs.Prelude.{◌≡◌};
ghost use Rattle.hm_model.specs.Calls.{no_choices, no_words, one_word, entry_of};

use crate::Runs;

/// Who makes a call: the caller, and the script's round, thread and step. `part` numbers the region
/// calls within one call of the allocator, from 1.
#[derive(Clone, Copy, Debug, PartialEq, Eq, Drop)]
pub struct Who {
    pub caller: u32,
    pub round: u32,
    pub thread: u32,
    pub step: u32,
    pub part: u8,
}

/// A call of a region. Sizes and lengths are in bytes.
#[derive(Debug, Drop)]
pub enum Call {
    Allot { asked: u64, align: u64 },
    GiveBack { addr: u64, stated: Option<u64> },
    Measure { addr: u64 },
    Fetch { addr: u64, len: u64 },
    Fill { addr: u64, runs: Runs },
}

/// What a region replies.
#[derive(Debug, Drop)]
pub enum Reply {
    /// A block was given.
    Given { addr: u64, usable: u64 },
    /// A slot was picked whose first nonzero usable byte is `found`, `at` bytes from its address.
    Overwritten { addr: u64, at: u64, found: u8 },
    /// No slot is available, and no slab can be opened.
    Exhausted,
    /// No free range of the large space holds the block and its guards.
    NoSpace,
    /// A page fault occurred.
    PagesFailed,
    /// A live block was taken back.
    Freed,
    /// The address is no place.
    NoSlot,
    /// The address is a place that was never given.
    Unused,
    /// The address was given and is not live.
    DoubleFree,
    /// The block's size and that of the stated size differ.
    WrongSize { block: u64, stated: u64 },
    /// The slab's canary and the slot's last 8 bytes differ.
    Canary { kept: u64, found: u64 },
    /// The usable bytes of a live block.
    Usable(u64),
    /// The bytes that were asked for.
    Bytes(Runs),
    /// The bytes were written.
    Filled,
    /// The first address asked for that is not accessible, or the range's own where all are and the pages do not
    /// lend it.
    Trap { addr: u64 },
    /// The address starts no live large block.
    NotLive,
}

/// What a call chose: the canary and number of a slab that was opened, the address that left the
/// quarantine, the slabs that were retired, purged and unparked, and the guard of a large block in
/// pages.
#[derive(Clone, Copy, Debug, PartialEq, Eq, Drop)]
pub struct Choices {
    pub canary: Option<u64>,
    pub opened: Option<u64>,
    pub released: Option<u64>,
    pub retired: Option<u64>,
    pub purged: Option<u64>,
    pub unparked: Option<u64>,
    pub guard: Option<u64>,
}

/// The first `used` words that a call drew; those past them are 0.
#[derive(Clone, Copy, Debug, PartialEq, Eq, Drop)]
pub struct Draws {
    pub used: u8,
    pub w0: u32,
    pub w1: u32,
    pub w2: u32,
}

/// An entry of a region's history. The counts of page faults are those at the call's start and end.
#[derive(Debug, Drop)]
pub struct Entry {
    pub who: Who,
    pub call: Call,
    pub reply: Reply,
    pub choices: Choices,
    pub draws: Draws,
    pub faults_before: u64,
    pub faults_after: u64,
}

impl Choices {
    /// Nothing is chosen.
    pub fn none() -> Choices
        ensures { result ≡ no_choices }
    {
        Choices {
            canary: None,
            opened: None,
            released: None,
            retired: None,
            purged: None,
            unparked: None,
            guard: None,
        }
    }
}

impl Draws {
    /// No word is drawn.
    pub fn none() -> Draws
        ensures { result ≡ no_words }
    {
        Draws {
            used: 0,
            w0: 0,
            w1: 0,
            w2: 0,
        }
    }

    /// One word is drawn.
    pub fn one(word: u32) -> Draws
        ensures { result ≡ one_word word }
    {
        Draws {
            used: 1,
            w0: word,
            w1: 0,
            w2: 0,
        }
    }
}

impl Entry {
    /// The entry of a call that chose nothing and drew no word. `before` and `now` are the counts of page
    /// faults at its start and end.
    pub fn plain(who: Who, call: Call, reply: Reply, before: u64, now: u64) -> Entry
        ensures { result ≡ entry_of who call reply no_choices no_words before now }
    {
        Entry {
            who,
            call,
            reply,
            choices: Choices::none(),
            draws: Draws::none(),
            faults_before: before,
            faults_after: now,
        }
    }
}
