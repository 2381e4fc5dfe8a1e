//! What a seat at the lock's table knows. It stands in proofs alone.
use hm_model::Entry;
use std::collections::LinkedList;

/// What a seat at the lock's table knows. No value of it is made.
pub struct View {
    pub caller: u32,
    /// The origin of the lock's value.
    pub origin: LinkedList<u64>,
    /// The entries known, a beginning of the history.
    pub seen: LinkedList<Entry>,
    /// The caller's own entries.
    pub mine: LinkedList<Entry>,
    /// How many steps of this seat found a ticket drawn by another that was not served when the call loaded
    /// `serving`, or found 2^64 - 1 tickets drawn.
    pub lost: u64,
    /// The caller numbers that were split off.
    pub used: LinkedList<u32>,
    /// How many of them are not joined.
    pub out: u64,
    /// Each joined caller, with its entries.
    pub ended: LinkedList<(u32, LinkedList<Entry>)>,
    /// The number that the seat has drawn.
    pub ticket: Option<u64>,
    /// The number that the seat found served, while it has not asked for it.
    pub note: Option<u64>,
    /// Whether the seat holds the turn, and has the value out.
    pub holds: bool,
    /// Whether the seat was joined to another.
    pub spent: bool,
}
