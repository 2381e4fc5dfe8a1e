//! What the table keeps.

/// A block of the large region: what was asked for, its bytes and the guard pages on each side of it, whether the
/// quarantine holds it, and whether an earlier free of it met a page fault.
#[derive(Clone, Copy, PartialEq, Eq, Debug)]
pub struct Block {
    pub asked: u64,
    pub size: u64,
    pub guard: u64,
    pub quarantined: bool,
    pub failed: bool,
}

/// A block beside its key.
#[derive(Clone, Copy, Debug)]
pub struct Entry {
    pub addr: u64,
    pub block: Block,
}
