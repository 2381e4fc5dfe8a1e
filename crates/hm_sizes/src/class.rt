//! The 49 size classes, and where a request goes.
ghost use Rattle.std.specs.Prelude.{◌≡◌, ◌<◌};
ghost use Rattle.hm_sizes.specs.Classes.{class_count, class_size};
ghost use Rattle.hm_sizes.specs.Sizes.{raised, block_size, IsKindOf};

use crate::large::large_size;
use crate::table::{SIZE_CLASSES, numbers_of};

/// A size class, from 0 to 48.
#[derive(Clone, Copy, Debug, PartialEq, Eq, PartialOrd, Ord, Drop)]
pub struct ClassId(pub u8);

/// Where a request goes.
#[derive(Clone, Copy, Debug, PartialEq, Eq, Drop)]
pub enum Kind {
    /// A slot of this class.
    Small(ClassId),
    /// A large block of this size, rounded already.
    Large(u64),
    TooLarge,
}

/// The greatest request that is served.
pub(crate) const GREATEST: u64 = 1 << 30;
/// The greatest request that is raised, by the 8 bytes of a canary.
const GREATEST_RAISED: u64 = 131072;

/// Where a request of this many bytes goes.
pub fn class_of(asked: u64) -> Kind
    ensures { IsKindOf asked result }
{
    if asked > GREATEST {
        return Kind::TooLarge;
    }
    let class = SIZE_CLASSES.partition_point(|class| class.greatest < asked);
    if class < SIZE_CLASSES.len() {
        Kind::Small(ClassId(class as u8))
    } else {
        Kind::Large(large_size(raised(asked)))
    }
}

/// The size of the block for a request of this many bytes: the class size of a small one, the rounded
/// size of a large one, and the request itself where it is not served.
pub fn block_size(asked: u64) -> u64
    ensures { result ≡ block_size asked }
{
    match class_of(asked) {
        Kind::Small(class) => class_size(class),
        Kind::Large(size) => size,
        Kind::TooLarge => asked,
    }
}

/// The size of a block of a class.
fn class_size(class: ClassId) -> u64
    requires { class.0 < class_count }
    ensures { result ≡ class_size class.0 }
{
    if class.0 == 0 {
        0
    } else {
        numbers_of(class).slot
    }
}

/// A request's size with room for a canary, from 1 to 131,072 bytes; 0 and greater requests as they are.
pub fn raised(asked: u64) -> u64
    ensures { result ≡ raised asked }
{
    if (1..=GREATEST_RAISED).contains(&asked) {
        asked + 8
    } else {
        asked
    }
}
