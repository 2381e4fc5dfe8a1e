//! Reading words: each is taken for what it would say. A word that says nothing of the kind gives any value, since what
//! was read is written again and compared with the line.
ghost use Rattle.std.specs.Prelude.{◌≡◌, ◌==◌, ◌↔◌, map, IfOk, IfSome, IsSome};
ghost use Rattle.std.specs.List.{slice_split};
ghost use Rattle.hm_model.specs.Runs.{AreRuns};
ghost use Rattle.hm_journal.specs.Reading.{words_at, word_at, next_value, number_at, number32_at, number8_at, option_at, flag_at, digit_at, byte_at, run_at, pairs_at};

use hm_base::NoMemory;
use hm_model::Runs;
use std::alloc::{AllocError, Global};

/// The words of a line, without the line feed behind them.
pub(crate) fn words_in(alloc: Global, line: &[u8]) -> Result<Vec<&[u8]>, AllocError>
    ensures { IfOk result (λ v. map (λ w. w.now) v.items ≡ words_at line.now) }
{
    let words = &line[..line.len().saturating_sub(1)];
    words.split(|b| *b == b' ').collect(alloc)
}

/// The word at an index, or none.
pub(crate) fn word_in<'a>(words: &[&'a [u8]], index: usize) -> &'a [u8]
    ensures { result.now ≡ word_at (map (λ w. w.now) words.now) index }
{
    match words.get(index) {
        Some(word) => word,
        None => b"",
    }
}

fn push_digit(value: u64, digit: u8) -> u64
    ensures { result ≡ next_value value digit }
{
    value
        .wrapping_mul(10)
        .wrapping_add(u64::from(digit.saturating_sub(b'0')))
}

/// A number of 64 bits.
#[tactic(auto, unfolding(crate::specs::Reading::number_at))]
pub(crate) fn number_in(word: &[u8]) -> u64
    ensures { result ≡ number_at word.now }
{
    let mut value = 0;
    for digit in word {
        value = push_digit(value, *digit);
    }
    value
}

/// A number of 32 bits.
#[tactic(auto, unfolding(crate::specs::Reading::number32_at))]
pub(crate) fn number32_in(word: &[u8]) -> u32
    ensures { result ≡ number32_at word.now }
{
    number_in(word).min(u64::from(u32::MAX)) as u32
}

/// A number of 8 bits.
#[tactic(auto, unfolding(crate::specs::Reading::number8_at))]
pub(crate) fn number8_in(word: &[u8]) -> u8
    ensures { result ≡ number8_at word.now }
{
    number_in(word).min(u64::from(u8::MAX)) as u8
}

/// `-`, or a number of 64 bits.
#[tactic(auto, unfolding(crate::specs::Reading::option_at))]
pub(crate) fn option_in(word: &[u8]) -> Option<u64>
    ensures { result ≡ option_at word.now }
{
    if word == b"-".as_slice() {
        None
    } else {
        Some(number_in(word))
    }
}

/// A flag.
#[tactic(auto, unfolding(crate::specs::Reading::flag_at))]
pub(crate) fn flag_in(word: &[u8]) -> bool
    ensures { result ≡ flag_at word.now }
{
    word == b"1".as_slice()
}

#[tactic(auto, unfolding(crate::specs::Reading::digit_at))]
fn digit_in(digit: u8) -> u8
    ensures { result ≡ digit_at digit }
{
    if digit <= b'9' {
        digit.saturating_sub(b'0')
    } else {
        digit.saturating_sub(b'a' - 10)
    }
}

/// A byte of two digits, with which a word begins.
#[tactic(auto, unfolding(crate::specs::Reading::byte_at))]
pub(crate) fn byte_in(word: &[u8]) -> u8
    ensures { result ≡ byte_at word.now }
{
    match word {
        [high, low, ..] => digit_in(*high)
            .wrapping_mul(16)
            .wrapping_add(digit_in(*low)),
        _ => 0,
    }
}

#[tactic(auto, unfolding(crate::specs::Reading::run_at))]
fn run_in(word: &[u8]) -> (u8, u64)
    ensures { result ≡ run_at word.now }
{
    let len = word.get(3..).unwrap_or(b"");
    (byte_in(word), number_in(len))
}

// The runs between single commas.
fn comma_runs(alloc: Global, word: &[u8]) -> Result<Vec<(u8, u64)>, AllocError>
    ensures { IfOk result (λ v. v.items ≡ map run_at (slice_split (λ b. b == 44) word.now)) }
{
    word.split(|b| *b == b',').map(run_in).collect(alloc)
}

#[tactic(auto, unfolding(crate::specs::Reading::pairs_at))]
fn pairs_in(alloc: Global, word: &[u8]) -> Result<Vec<(u8, u64)>, AllocError>
    ensures { IfOk result (λ v. v.items ≡ pairs_at word.now) }
{
    if word == b"-".as_slice() {
        Ok(Vec::new(alloc))
    } else {
        comma_runs(alloc, word)
    }
}

/// Runs of bytes, unless they break a rule of runs.
pub(crate) fn runs_in(alloc: Global, word: &[u8]) -> Result<Option<Runs>, NoMemory>
    ensures some { IfOk result (λ o. IsSome o ↔ AreRuns (pairs_at word.now)) }
    ensures value { IfOk result (λ o. IfSome o (λ runs. runs ≡ pairs_at word.now)) }
{
    let pairs = pairs_in(alloc, word)?;
    Ok(Runs::from_pairs(pairs))
}
