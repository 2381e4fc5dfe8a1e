//! The words that an entry says, against those of the stream, and what they draw.
ghost use Rattle.std.specs.Prelude.{◌≡◌, ◌+◌, ◌<◌, ◌≤◌, ◌↔◌, IsTrue, IfSome};
ghost use Rattle.hm_choice.specs.Stream.{drawn, canary_of};
ghost use Rattle.hm_quarantine.specs.Quarantine.{IsArrayIndex};
ghost use Rattle.hm_sizes.specs.Shapes.{IsShape};
ghost use Rattle.hm_model.specs.Entries.{AreDraws};
ghost use Rattle.hm_class_rules.specs.Draws.{words_of, words_from, after_words, word_after, canary_words, start_words, array_words, parking_words, start_slot, array_index, parking_index};
ghost use Rattle.hm_class_book.specs.Book.{terms};

use crate::region::Region;
use hm_choice::Stream;
use hm_model::{Choices, Draws};
use hm_sizes::Shape;

/// Whether the words past those that were drawn are 0.
pub(crate) fn are_draws(draws: &Draws) -> bool
    ensures { IsTrue result ↔ AreDraws draws.now }
{
    let first = draws.used >= 1 || draws.w0 == 0;
    let second = draws.used >= 2 || draws.w1 == 0;
    let third = draws.used >= 3 || draws.w2 == 0;
    first & second & third
}

// Takes so many words, and says whether they are those of an entry.
fn are_next(stream: &mut Stream, draws: &Draws) -> bool
    requires { draws.now.used ≤ 3 }
    ensures same { IsTrue result ↔ words_of draws.now ≡ words_from stream.old draws.now.used }
    ensures taken { stream.new ≡ after_words stream.old draws.now.used }
{
    if draws.used == 0 {
        return true;
    }
    let first = stream.word() == draws.w0;
    if draws.used == 1 {
        return first;
    }
    let second = stream.word() == draws.w1;
    if draws.used == 2 {
        return first & second;
    }
    let third = stream.word() == draws.w2;
    first & second & third
}

/// Takes the words of an entry, where there are so many, and says whether they are the next ones.
pub(crate) fn are_words(stream: &mut Stream, draws: &Draws, count: u8) -> bool
    requires { count ≤ 3 }
    ensures same { IsTrue result
        ↔ ((draws.now.used ≡ count) × (words_of draws.now ≡ words_from stream.old draws.now.used)) }
    ensures taken { IsTrue result → stream.new ≡ after_words stream.old draws.now.used }
{
    draws.used == count && are_next(stream, draws)
}

// The word of an entry after so many others.
fn word_after(count: u8, draws: &Draws) -> u32
    requires { count ≤ 2 }
    ensures { result ≡ word_after count draws.now }
{
    match count {
        0 => draws.w0,
        1 => draws.w1,
        _ => draws.w2,
    }
}

// The number below n that a word draws.
fn drawn(n: u32, word: u32) -> u32
    ensures value { result ≡ drawn n word }
    ensures below { 0 < n → result < n }
{
    ((u64::from(word) * u64::from(n)) >> 32) as u32
}

/// How many words a canary takes, where one is drawn.
pub(crate) fn canary_words(shape: &Shape, choices: &Choices) -> u8
    ensures value { result ≡ canary_words shape.now choices.now }
    ensures few { result ≤ 2 }
{
    if shape.has_bytes() & choices.opened.is_some() {
        2
    } else {
        0
    }
}

/// How many words a picking takes.
pub(crate) fn picking_words(region: &Region, choices: &Choices) -> u8
    ensures value { result ≡ canary_words region.now.shape choices.now + start_words region.now.config }
    ensures few { result ≤ 3 }
{
    let start = if region.config.random_slots { 1 } else { 0 };
    canary_words(&region.shape, choices) + start
}

/// How many words the index in the array takes.
pub(crate) fn array_words(shape: &Shape) -> u8
    ensures value { result ≡ array_words shape.now }
    ensures few { result ≤ 1 }
{
    if shape.array == 0 { 0 } else { 1 }
}

/// How many words taking a block back takes.
pub(crate) fn free_words(shape: &Shape, choices: &Choices) -> u8
    ensures value { result ≡ array_words shape.now + parking_words choices.now }
    ensures few { result ≤ 2 }
{
    let parking = if choices.retired.is_some() { 1 } else { 0 };
    array_words(shape) + parking
}

/// Whether a canary is that of the first two words.
pub(crate) fn is_canary(choices: &Choices, draws: &Draws) -> bool
    ensures { IsTrue result ↔ IfSome choices.now.canary (λ k. k ≡ canary_of draws.now.w0 draws.now.w1) }
{
    match choices.canary {
        None => true,
        Some(canary) => {
            let both = u64::from(draws.w1) * (1 << 32) + u64::from(draws.w0);
            canary == both / 256 * 256
        }
    }
}

/// The slot from which a picking starts.
pub(crate) fn start_slot(region: &Region, choices: &Choices, draws: &Draws) -> u32
    requires { IsShape region.now.shape }
    ensures value { result ≡ start_slot (terms region.now) choices.now draws.now }
    ensures below { result < region.now.shape.slots }
{
    if region.config.random_slots {
        let word = word_after(canary_words(&region.shape, choices), draws);
        drawn(region.shape.slots, word)
    } else {
        0
    }
}

/// The index in the array to which a freed slot goes.
pub(crate) fn array_index(shape: &Shape, draws: &Draws) -> u32
    ensures value { result ≡ array_index shape.now draws.now }
    ensures index { IsArrayIndex shape.now.array result }
{
    drawn(shape.array, draws.w0)
}

/// The parking index of a retired slab.
pub(crate) fn parking_index(region: &Region, draws: &Draws) -> u32
    requires { 1 ≤ region.now.config.park_length }
    ensures value { result ≡ parking_index (terms region.now) draws.now }
    ensures below { result < region.now.config.park_length }
{
    drawn(
        region.config.park_length,
        word_after(array_words(&region.shape), draws),
    )
}
