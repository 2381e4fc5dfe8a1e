//! The numbers of the large region by their names in code; specs/State has those of definitions.

/// The number of the region's stream.
pub const STREAM: u64 = 196;

/// A freed block below this size stays in quarantine.
pub const QUARANTINED_BELOW: u64 = 1 << 25;

/// The length of the quarantine's array.
pub const ARRAY_LENGTH: u32 = 256;

/// The length of its ring.
pub const RING_LENGTH: u32 = 1024;
