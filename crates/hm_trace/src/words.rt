//! The words of a line, and the names, numbers, places and bytes that they are.
ghost use Rattle.std.specs.Prelude.{◌≡◌, ◌≤◌, ◌<◌, length, map, position, IfOk};
ghost use Rattle.hm_trace.specs.Gives.{GivesBy, or_fault};
ghost use Rattle.hm_trace.specs.Limits.{max_offset};
ghost use Rattle.hm_trace.specs.Lines.{words_at, is_sign, sign_position};
ghost use Rattle.hm_trace.specs.Views.{name_view, place_view};
ghost use Rattle.hm_trace.specs.ReadNumbers.{hex_digit, hex_at};
ghost use Rattle.hm_trace.specs.ReadWords.{name_at, size_at, length_at, distance_at, byte_at, offset_at, named_at, place_at};

use crate::fault::FaultKind;
use crate::limits::{MAX_LENGTH, MAX_OFFSET};
use crate::names::Name;
use crate::numbers::{digit_of, hex_of, number_of};
use crate::step::Place;
use std::alloc::{AllocError, Global};

/// The pieces between single spaces.
pub(crate) fn words_of(alloc: Global, line: &[u8]) -> Result<Vec<&[u8]>, AllocError>
    ensures { IfOk result (λ v. map (λ w. w.now) v.items ≡ words_at line.now) }
{
    line.split(|b| *b == b' ').collect(alloc)
}

/// A name, as the word of a step.
pub(crate) fn name_of(word: &[u8]) -> Result<Name, FaultKind>
    ensures { GivesBy name_view result (name_at word.now) }
{
    Name::of(word).ok_or(FaultKind::BadName)
}

/// A size, a count or an alignment.
pub(crate) fn size_of(word: &[u8]) -> Result<u64, FaultKind>
    ensures { GivesBy (λ n. n) result (size_at word.now) }
{
    number_of(word).ok_or(FaultKind::BadNumber)
}

#[tactic(auto, unfolding(crate::specs::ReadWords::length_at))]
pub(crate) fn length_of(word: &[u8]) -> Result<u64, FaultKind>
    ensures { GivesBy (λ n. n) result (length_at word.now) }
{
    let length = size_of(word)?;
    if (1..=MAX_LENGTH).contains(&length) {
        Ok(length)
    } else {
        Err(FaultKind::BadNumber)
    }
}

#[tactic(auto, unfolding(crate::specs::ReadWords::distance_at))]
fn distance_of(word: &[u8]) -> Result<u64, FaultKind>
    ensures value { GivesBy (λ n. n) result (distance_at word.now) }
    ensures small { IfOk result (λ n. n ≤ max_offset) }
{
    let distance = size_of(word)?;
    if (1..=MAX_OFFSET).contains(&distance) {
        Ok(distance)
    } else {
        Err(FaultKind::BadNumber)
    }
}

// Nothing, or a sign and a distance.
#[tactic(auto, unfolding(crate::specs::ReadWords::offset_at))]
fn offset_of(word: &[u8]) -> Result<i64, FaultKind>
    ensures { GivesBy (λ z. z) result (offset_at word.now) }
{
    match word {
        [] => Ok(0),
        [sign, digits @ ..] => {
            let distance = distance_of(digits)? as i64;
            Ok(if *sign == b'+' { distance } else { -distance })
        }
    }
}

// Where the first sign stands.
fn first_sign(word: &[u8]) -> Option<usize>
    ensures { result ≡ position is_sign word.now }
{
    word.iter().position(|c| *c == b'+' || *c == b'-')
}

// The same, or the length.
fn sign_at(word: &[u8]) -> usize
    ensures position { result ≡ sign_position word.now }
    ensures within { result ≤ length word.now }
{
    first_sign(word).unwrap_or(word.len())
}

#[tactic(auto, unfolding(crate::specs::ReadWords::named_at))]
fn named_of(word: &[u8]) -> Result<Place, FaultKind>
    ensures { GivesBy place_view result (named_at word.now) }
{
    let (front, back) = word.split_at(sign_at(word));
    let name = name_of(front)?;
    let offset = offset_of(back)?;
    Ok(Place::Named { name, offset })
}

fn address_of(word: &[u8]) -> Result<u64, FaultKind>
    ensures { GivesBy (λ n. n) result (or_fault FaultKind.BadNumber (hex_at word.now)) }
{
    hex_of(word).ok_or(FaultKind::BadNumber)
}

#[tactic(auto, unfolding(crate::specs::ReadWords::place_at))]
pub(crate) fn place_of(word: &[u8]) -> Result<Place, FaultKind>
    ensures { GivesBy place_view result (place_at word.now) }
{
    match word {
        [] => Err(FaultKind::BadName),
        [b'@', digits @ ..] => {
            let address = address_of(digits)?;
            Ok(Place::At(address))
        }
        _ => {
            if word == b"null".as_slice() {
                Ok(Place::Null)
            } else {
                named_of(word)
            }
        }
    }
}

fn hex_digit_of(c: u8) -> Result<u8, FaultKind>
    ensures value { GivesBy (λ n. n) result (or_fault FaultKind.BadNumber (hex_digit c)) }
    ensures small { IfOk result (λ n. n < 16) }
{
    digit_of(c).ok_or(FaultKind::BadNumber)
}

#[tactic(auto, unfolding(crate::specs::ReadWords::byte_at))]
pub(crate) fn byte_of(word: &[u8]) -> Result<u8, FaultKind>
    ensures { GivesBy (λ n. n) result (byte_at word.now) }
{
    match word {
        [high, low] => {
            let high = hex_digit_of(*high)?;
            let low = hex_digit_of(*low)?;
            Ok(16 * high + low)
        }
        _ => Err(FaultKind::BadNumber),
    }
}
