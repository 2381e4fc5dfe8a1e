//! The answers of the allocator to a program's call.
use crate::Reply;

/// The answer of the allocator to a program's call.
#[derive(Debug, Drop)]
pub enum Answer {
    /// What the region replied; for the size of address 0, `Usable(0)` without a region.
    Reply(Reply),
    /// The product of count and size passes 2^64 - 1.
    Overflow,
    /// The alignment is no power of two up to 2^21.
    BadAlignment,
    /// The request is above 2^30.
    TooLarge,
    /// The address lies in no region.
    Outside,
    /// The region's turn was not free.
    Busy,
    /// The new block was given, but moving was refused for this cause.
    HalfMoved {
        addr: u64,
        usable: u64,
        cause: Reply,
    },
    /// The block serves the new size as it is.
    Kept {
        addr: u64,
        usable: u64,
    },
    /// Address 0 was freed.
    Nothing,
}
