//! A map of 256 bits in four words.
//! Contracts say of each bit whether it is set.
ghost use Rattle.std.specs.Prelude.{◌≡◌, ◌<◌, ◌==◌, ◌||◌, ◌↔◌, if◌then◌else◌, ℕ, IsTrue, true, false, IfSome, IfNone};
ghost use Rattle.hm_slab_meta.specs.Maps.{has, IsClear, IsFirstOut, AreAllIn};

use crate::word::{first_clear, is_clear};

/// A set of numbers below 256.
#[derive(Clone, Copy, Debug)]
pub(crate) struct BitMap {
    words: [u64; 4],
}

impl BitMap {
    /// No bit is set.
    pub(crate) fn empty() -> BitMap
        ensures { IsClear result }
    {
        BitMap { words: [0; 4] }
    }

    /// Whether no bit is set.
    pub(crate) fn is_empty(&self) -> bool
        ensures { IsTrue result ↔ IsClear self.now }
    {
        self.words.iter().all(|word| is_clear(*word))
    }

    /// Whether the bit is set.
    pub(crate) fn contains(&self, bit: u32) -> bool
        requires { bit < 256 }
        ensures { result ≡ has self.now bit }
    {
        self.words[(bit / 64) as usize] & (1 << (bit % 64)) != 0
    }

    /// Sets the bit.
    pub(crate) fn insert(&mut self, bit: u32)
        requires { bit < 256 }
        ensures { (i : ℕ) → i < 256 → has self.new i ≡ (if i == bit then true else has self.old i) }
    {
        self.words[(bit / 64) as usize] |= 1 << (bit % 64);
    }

    /// Clears the bit.
    pub(crate) fn remove(&mut self, bit: u32)
        requires { bit < 256 }
        ensures { (i : ℕ) → i < 256 → has self.new i ≡ (if i == bit then false else has self.old i) }
    {
        self.words[(bit / 64) as usize] &= !(1 << (bit % 64));
    }

    /// The bits that are set in either.
    pub(crate) fn union(&self, other: &BitMap) -> BitMap
        ensures { (i : ℕ) → i < 256 → has result i ≡ (has self.now i || has other.now i) }
    {
        let [a, b, c, d] = self.words;
        let [e, f, g, h] = other.words;
        BitMap {
            words: [a | e, b | f, c | g, d | h],
        }
    }

    /// The first clear bit from this one on.
    pub(crate) fn first_clear_from(&self, from: u32) -> Option<u32>
        requires { from < 256 }
        ensures found { IfSome result (IsFirstOut self.now from) }
        ensures none { IfNone result (AreAllIn self.now from 256) }
    {
        let mut low = from % 64;
        for index in from / 64..4 {
            if let Some(bit) = first_clear(self.words[index as usize], low) {
                return Some(64 * index + bit);
            }
            low = 0;
        }
        None
    }
}
