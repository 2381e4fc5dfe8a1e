//! The bytes of slots: the first that is not zero, clearing them, and the canary at a slot's end. No call
//! takes memory.
#![tactic(auto)]

ghost use Rattle.std.specs.Prelude.{◌≡◌, ◌↔◌, ◌+◌, ◌≤◌, IsTrue, length, replicate};
ghost use Rattle.hm_canary.specs.Canaries.{first_nonzero, canary_bytes};
ghost use Rattle.hm_canary.specs.Lanes.{AllZero};

use std::simd::prelude::*;

/// Whether the 32 bytes from `from` on are all zero.
#[inline(always)]
fn is_zero_lane(bytes: &[u8], from: usize) -> bool
    requires { from + 32 ≤ length bytes.now }
    ensures { IsTrue result → AllZero bytes.now from (from + 32) }
{
    u8x32::from_slice(&bytes[from..])
        .simd_ne(u8x32::splat(0))
        .to_bitmask()
        == 0
}

/// Whether the 8 bytes from `from` on are all zero.
#[inline(always)]
fn is_zero_word(bytes: &[u8], from: usize) -> bool
    requires { from + 8 ≤ length bytes.now }
    ensures { IsTrue result → AllZero bytes.now from (from + 8) }
{
    u8x8::from_slice(&bytes[from..])
        .simd_ne(u8x8::splat(0))
        .to_bitmask()
        == 0
}

/// How many zero bytes at the front were passed, by whole lanes.
fn skip_lanes(bytes: &[u8]) -> usize
    ensures within { result ≤ length bytes.now }
    ensures zero { AllZero bytes.now 0 result }
{
    let len = bytes.len();
    let mut i = 0;
    while 32 <= len - i && is_zero_lane(bytes, i) {
        i += 32;
    }
    i
}

/// How many zero bytes at the front were passed: the first `from` of them, and after them whole words.
fn skip_words(bytes: &[u8], from: usize) -> usize
    requires within { from ≤ length bytes.now }
    requires zero { AllZero bytes.now 0 from }
    ensures within { result ≤ length bytes.now }
    ensures zero { AllZero bytes.now 0 result }
{
    let len = bytes.len();
    let mut i = from;
    while 8 <= len - i && is_zero_word(bytes, i) {
        i += 8;
    }
    i
}

/// The index of the first byte that is not zero.
pub fn first_nonzero(bytes: &[u8]) -> Option<usize>
    ensures { result ≡ first_nonzero bytes.now }
{
    let skipped = skip_words(bytes, skip_lanes(bytes));
    let index = first_by_bytes(&bytes[skipped..])?;
    Some(skipped + index)
}

/// The same, byte by byte.
fn first_by_bytes(bytes: &[u8]) -> Option<usize>
    ensures { result ≡ first_nonzero bytes.now }
{
    bytes.iter().position(|byte| *byte != 0)
}

/// Makes all bytes zero.
pub fn clear(bytes: &mut [u8])
    ensures { bytes.new ≡ replicate (length bytes.old) 0 }
{
    bytes.fill(0);
}

/// Sets the last 8 bytes of a slot to its canary, lowest byte first.
pub fn set(last: &mut [u8; 8], canary: u64)
    ensures { last.new ≡ canary_bytes canary }
{
    *last = canary.to_le_bytes();
}

/// Whether the last 8 bytes of a slot are its canary.
pub fn matches(last: &[u8; 8], canary: u64) -> bool
    ensures { IsTrue result ↔ (last.now ≡ canary_bytes canary) }
{
    u64::from_le_bytes(*last) == canary
}

#[cfg(test)]
mod tests;
