//! Where a request goes whose block is to begin at a multiple of an alignment.
ghost use Rattle.std.specs.Prelude.{ℕ, ◌<◌, ◌↔◌, IsTrue, MatchOption};
ghost use Rattle.hm_sizes.specs.Aligned.{IsAlignment, ServesAligned, IsLeastAligned, AlignedGives};

use crate::class::GREATEST;
use crate::large::large_size;
use crate::table::SIZE_CLASSES;
use crate::{ClassId, Kind, PAGE, class_of, raised};

/// The greatest alignment.
const MOST_ALIGNMENT: u64 = 1 << 21;

/// Up to it each class serves: all slot sizes are multiples of it.
const SLOT_ALIGNMENT: u64 = 16;

/// Up to it classes serve: slabs stand at multiples of it.
const SLAB_ALIGNMENT: u64 = PAGE;

/// Where a request goes whose block is to begin at a multiple of `align`: nowhere where that is no power
/// of two up to 2^21.
pub fn class_aligned(asked: u64, align: u64) -> Option<Kind>
    ensures { AlignedGives asked align result }
{
    if !is_alignment(align) {
        return None;
    }
    if align <= SLOT_ALIGNMENT {
        return Some(class_of(asked));
    }
    if asked > GREATEST {
        return Some(Kind::TooLarge);
    }
    let size = raised(asked);
    match least_aligned(size, align) {
        Some(class) if align <= SLAB_ALIGNMENT => Some(Kind::Small(class)),
        _ => Some(Kind::Large(large_size(size))),
    }
}

/// The least class whose slots hold `size` bytes and stand at multiples of `align`.
fn least_aligned(size: u64, align: u64) -> Option<ClassId>
    requires { 16 < align }
    ensures { MatchOption result ((class : ℕ) → ¬ ServesAligned size align class)
        (λ class. IsLeastAligned size align class.0) }
{
    let class = SIZE_CLASSES.iter().position(|class| class.slot >= size
        && class.slot.is_multiple_of(align))?;
    Some(ClassId(class as u8))
}

/// Whether this is a power of two up to 2^21.
fn is_alignment(align: u64) -> bool
    ensures { IsTrue result ↔ IsAlignment align }
{
    align.is_power_of_two() && align <= MOST_ALIGNMENT
}
