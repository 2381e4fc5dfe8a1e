//! What a call of a region comes to: the reply, what was chosen with it, and the words that it drew.
ghost use Rattle.std.specs.Prelude.{◌≡◌};
ghost use Rattle.hm_class.specs.Events.{HasNoBytes, plain, chose_opened, start_draws, freed, freed_choices, freed_draws};

use hm_model::{Choices, Draws, Reply};

/// The reply of a call, what was chosen with it, and the words that it drew.
#[derive(Drop)]
pub struct Event {
    pub reply: Reply,
    pub choices: Choices,
    pub draws: Draws,
}

/// A canary, and the two words of which it is made.
#[derive(Clone, Copy, Drop)]
pub struct Canary {
    pub low: u32,
    pub high: u32,
    pub canary: u64,
}

/// What becomes of a slab of which a slot was released.
#[derive(Clone, Copy, Drop)]
pub enum Emptied {
    /// It serves on, or no slot was released.
    Kept,
    /// It is retired. `word` names its parking index, and `unparked` is the slab that stood there.
    Retired {
        slab: u64,
        word: u32,
        unparked: Option<u64>,
    },
    /// Its pages did not go, and their bytes were made zero.
    Purged {
        slab: u64,
    },
}

/// The words that are drawn as a slot is picked: those of the canary of a slab that is opened for it, and
/// the start slot's, where slots are random.
pub fn start_draws(canary: Option<Canary>, word: Option<u32>) -> Draws
    ensures { result ≡ start_draws canary word }
{
    match (canary, word) {
        (None, None) => Draws::none(),
        (None, Some(word)) => Draws::one(word),
        (Some(canary), None) => Draws {
            used: 2,
            w0: canary.low,
            w1: canary.high,
            w2: 0,
        },
        (Some(canary), Some(word)) => Draws {
            used: 3,
            w0: canary.low,
            w1: canary.high,
            w2: word,
        },
    }
}

/// What is chosen where a slab is opened.
pub fn opened_choices(slab: u64, canary: Option<Canary>) -> Choices
    ensures { result ≡ chose_opened slab canary }
{
    Choices {
        canary: canary.map(|canary| canary.canary),
        opened: Some(slab),
        ..Choices::none()
    }
}

// What is chosen as a block is taken back.
fn freed_choices(released: Option<u64>, emptied: Emptied) -> Choices
    ensures { result ≡ freed_choices released emptied }
{
    let (retired, purged, unparked) = match emptied {
        Emptied::Kept => (None, None, None),
        Emptied::Retired { slab, unparked, .. } => (Some(slab), None, unparked),
        Emptied::Purged { slab } => (None, Some(slab), None),
    };
    Choices {
        released,
        retired,
        purged,
        unparked,
        ..Choices::none()
    }
}

// The words that are drawn as a block is taken back: that of the array's index, where there is an array,
// and that of the parking index.
fn freed_draws(array: Option<u32>, emptied: Emptied) -> Draws
    ensures { result ≡ freed_draws array emptied }
{
    match (array, emptied) {
        (None, Emptied::Retired { word, .. }) => Draws::one(word),
        (None, Emptied::Kept | Emptied::Purged { .. }) => Draws::none(),
        (Some(array), Emptied::Retired { word, .. }) => Draws {
            used: 2,
            w0: array,
            w1: word,
            w2: 0,
        },
        (Some(array), Emptied::Kept | Emptied::Purged { .. }) => Draws::one(array),
    }
}

impl Event {
    /// A reply with which nothing was chosen and drawn.
    pub fn plain(reply: Reply) -> Event
        ensures { result ≡ plain reply }
    {
        Event {
            reply,
            choices: Choices::none(),
            draws: Draws::none(),
        }
    }

    /// A block was taken back. `array` is the word of its index of the quarantine's array, and `released` the
    /// slot that left the quarantine.
    pub fn freed(array: Option<u32>, released: Option<u64>, emptied: Emptied) -> Event
        ensures { result ≡ freed array released emptied }
    {
        Event {
            reply: Reply::Freed,
            choices: freed_choices(released, emptied),
            draws: freed_draws(array, emptied),
        }
    }
}

/// A reply with no bytes, once more.
pub fn again(reply: &Reply) -> Reply
    requires { HasNoBytes reply.now }
    ensures { result ≡ reply.now }
{
    match reply {
        Reply::Given { addr, usable } => Reply::Given {
            addr: *addr,
            usable: *usable,
        },
        Reply::Overwritten { addr, at, found } => Reply::Overwritten {
            addr: *addr,
            at: *at,
            found: *found,
        },
        Reply::Exhausted => Reply::Exhausted,
        Reply::NoSpace => Reply::NoSpace,
        Reply::PagesFailed => Reply::PagesFailed,
        Reply::Freed => Reply::Freed,
        Reply::NoSlot => Reply::NoSlot,
        Reply::Unused => Reply::Unused,
        Reply::DoubleFree => Reply::DoubleFree,
        Reply::WrongSize { block, stated } => Reply::WrongSize {
            block: *block,
            stated: *stated,
        },
        Reply::Canary { kept, found } => Reply::Canary {
            kept: *kept,
            found: *found,
        },
        Reply::Usable(usable) => Reply::Usable(*usable),
        Reply::Bytes(_) => unreachable!(),
        Reply::Filled => Reply::Filled,
        Reply::Trap { addr } => Reply::Trap { addr: *addr },
        Reply::NotLive => Reply::NotLive,
    }
}
