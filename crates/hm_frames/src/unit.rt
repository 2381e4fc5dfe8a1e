//! What a run of pages keeps of each of its units of 512 bytes.

/// The bytes of a unit.
pub(crate) const UNIT: usize = 512;

/// One byte that stands at each cell of a unit, or bytes of its own, which stand in memory.
#[derive(Clone, Copy, PartialEq, Eq)]
pub(crate) enum UnitBytes {
    Same(u8),
    Own,
}
