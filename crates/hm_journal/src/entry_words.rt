//! Reading the words of an entry's line: who called, the words drawn, the choices, the call and the reply.
ghost use Rattle.std.specs.Prelude.{◌≡◌, map, IfOk};
ghost use Rattle.hm_model.specs.declared.entry.Call.TheVariants.{Fill};
ghost use Rattle.hm_model.specs.declared.entry.Reply.TheVariants.{Bytes};
ghost use Rattle.hm_journal.specs.Reading.{word_at, number_at, pairs_at, who_at, draws_at, choices_at, call_at, call_length, short_reply_at, long_reply_at, reply_at, GivesCall, GivesReply};

use crate::reading::{byte_in, number_in, number8_in, number32_in, option_in, runs_in, word_in};
use hm_base::NoMemory;
use hm_model::{Call, Choices, Draws, Reply, Who};
use std::alloc::Global;

#[tactic(auto, unfolding(crate::specs::Reading::who_at))]
pub(crate) fn who_in(words: &[&[u8]]) -> Who
    ensures { result ≡ who_at (map (λ w. w.now) words.now) }
{
    Who {
        caller: number32_in(word_in(words, 0)),
        round: number32_in(word_in(words, 1)),
        thread: number32_in(word_in(words, 2)),
        step: number32_in(word_in(words, 3)),
        part: number8_in(word_in(words, 4)),
    }
}

#[tactic(auto, unfolding(crate::specs::Reading::draws_at))]
pub(crate) fn draws_in(words: &[&[u8]]) -> Draws
    ensures { result ≡ draws_at (map (λ w. w.now) words.now) }
{
    Draws {
        used: number8_in(word_in(words, 7)),
        w0: number32_in(word_in(words, 8)),
        w1: number32_in(word_in(words, 9)),
        w2: number32_in(word_in(words, 10)),
    }
}

#[tactic(auto, unfolding(crate::specs::Reading::choices_at))]
pub(crate) fn choices_in(words: &[&[u8]]) -> Choices
    ensures { result ≡ choices_at (map (λ w. w.now) words.now) }
{
    Choices {
        canary: option_in(word_in(words, 11)),
        opened: option_in(word_in(words, 12)),
        released: option_in(word_in(words, 13)),
        retired: option_in(word_in(words, 14)),
        purged: option_in(word_in(words, 15)),
        unparked: option_in(word_in(words, 16)),
        guard: option_in(word_in(words, 17)),
    }
}

fn fill_in(alloc: Global, words: &[&[u8]]) -> Result<Option<Call>, NoMemory>
    ensures value { let said = map (λ w. w.now) words.now in
        IfOk result (λ o. GivesCall o (Some (Fill (number_at (word_at said 1)) (pairs_at (word_at said 2))))) }
{
    let addr = number_in(word_in(words, 1));
    match runs_in(alloc, word_in(words, 2))? {
        Some(runs) => Ok(Some(Call::Fill { addr, runs })),
        None => Ok(None),
    }
}

/// The call, of the words from its name on; none where its runs break a rule of runs.
#[tactic(auto, unfolding(crate::specs::Reading::call_at))]
pub(crate) fn call_in(alloc: Global, words: &[&[u8]]) -> Result<Option<Call>, NoMemory>
    ensures value { IfOk result (λ o. GivesCall o (call_at (map (λ w. w.now) words.now))) }
{
    let name = word_in(words, 0);
    let first = number_in(word_in(words, 1));
    let second = word_in(words, 2);
    if name == b"allot".as_slice() {
        let align = number_in(second);
        Ok(Some(Call::Allot {
            asked: first,
            align,
        }))
    } else if name == b"giveback".as_slice() {
        let stated = option_in(second);
        Ok(Some(Call::GiveBack {
            addr: first,
            stated,
        }))
    } else if name == b"measure".as_slice() {
        Ok(Some(Call::Measure { addr: first }))
    } else if name == b"fetch".as_slice() {
        let len = number_in(second);
        Ok(Some(Call::Fetch { addr: first, len }))
    } else if name == b"fill".as_slice() {
        fill_in(alloc, words)
    } else {
        Ok(None)
    }
}

/// How many words a call of this name has.
#[tactic(auto, unfolding(crate::specs::Reading::call_length))]
pub(crate) fn call_length(name: &[u8]) -> usize
    ensures { result ≡ call_length name.now }
{
    if name == b"measure".as_slice() { 2 } else { 3 }
}

#[tactic(auto, unfolding(crate::specs::Reading::short_reply_at))]
fn short_reply_in(digit: u8, words: &[&[u8]]) -> Option<Reply>
    ensures value { GivesReply result (short_reply_at digit (map (λ w. w.now) words.now)) }
{
    let first = number_in(word_in(words, 1));
    let second = number_in(word_in(words, 2));
    match digit {
        b'1' => Some(Reply::Given {
            addr: first,
            usable: second,
        }),
        b'2' => Some(Reply::Overwritten {
            addr: first,
            at: second,
            found: byte_in(word_in(words, 3)),
        }),
        b'3' => Some(Reply::Exhausted),
        b'4' => Some(Reply::NoSpace),
        b'5' => Some(Reply::PagesFailed),
        b'7' => Some(Reply::Freed),
        b'8' => Some(Reply::NoSlot),
        b'9' => Some(Reply::Unused),
        _ => None,
    }
}

fn bytes_in(alloc: Global, words: &[&[u8]]) -> Result<Option<Reply>, NoMemory>
    ensures value { IfOk result (λ o. GivesReply o (Some (Bytes (pairs_at (word_at (map (λ w. w.now) words.now) 1))))) }
{
    match runs_in(alloc, word_in(words, 1))? {
        Some(runs) => Ok(Some(Reply::Bytes(runs))),
        None => Ok(None),
    }
}

#[tactic(auto, unfolding(crate::specs::Reading::long_reply_at))]
fn long_reply_in(alloc: Global, digit: u8, words: &[&[u8]]) -> Result<Option<Reply>, NoMemory>
    ensures value { IfOk result (λ o. GivesReply o (long_reply_at digit (map (λ w. w.now) words.now))) }
{
    let first = number_in(word_in(words, 1));
    let second = number_in(word_in(words, 2));
    match digit {
        b'0' => Ok(Some(Reply::DoubleFree)),
        b'1' => Ok(Some(Reply::WrongSize {
            block: first,
            stated: second,
        })),
        b'2' => Ok(Some(Reply::Canary {
            kept: first,
            found: second,
        })),
        b'3' => Ok(Some(Reply::Usable(first))),
        b'4' => bytes_in(alloc, words),
        b'5' => Ok(Some(Reply::Filled)),
        b'6' => Ok(Some(Reply::Trap { addr: first })),
        b'7' => Ok(Some(Reply::NotLive)),
        _ => Ok(None),
    }
}

/// The reply, of the words from its number on; none where its runs break a rule of runs.
#[tactic(auto, unfolding(crate::specs::Reading::reply_at))]
pub(crate) fn reply_in(alloc: Global, words: &[&[u8]]) -> Result<Option<Reply>, NoMemory>
    ensures value { IfOk result (λ o. GivesReply o (reply_at (map (λ w. w.now) words.now))) }
{
    match word_in(words, 0) {
        [digit] => Ok(short_reply_in(*digit, words)),
        [b'1', digit] => long_reply_in(alloc, *digit, words),
        _ => Ok(None),
    }
}
