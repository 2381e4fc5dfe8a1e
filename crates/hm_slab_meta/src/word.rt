//! The bits of one word. The first clear one from a bit on: all lower bits are put out of sight by a mask,
//! and the zeros below the lowest bit that is left are counted.
ghost use Rattle.std.specs.Prelude.{◌≡◌, ◌<◌, ◌↔◌, ℕ, IsTrue, IfSome, IfNone};
ghost use Rattle.std.specs.Int.{bit_at};
ghost use Rattle.hm_slab_meta.specs.Words.{IsFirstClear, AreSet};

/// Whether no bit is set.
pub(crate) fn is_clear(word: u64) -> bool
    ensures { IsTrue result ↔ ((i : ℕ) → i < 64 → bit_at word i ≡ 0) }
{
    word == 0
}

/// The first clear bit from this one on.
pub(crate) fn first_clear(word: u64, from: u32) -> Option<u32>
    requires { from < 64 }
    ensures found { IfSome result (IsFirstClear word from) }
    ensures none { IfNone result (AreSet word from 64) }
{
    let clear = !word & (u64::MAX << from);
    if clear == 0 {
        None
    } else {
        Some(clear.trailing_zeros())
    }
}
