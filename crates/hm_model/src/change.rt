//! One change of the sizes of blocks.

/// A block was given with its usable size, or given back.
#[derive(Clone, Copy, Debug, PartialEq, Eq)]
pub enum SizeChange {
    Put { addr: u64, size: u64 },
    Gone { addr: u64 },
}
