//! A run of whole pages in raw memory, which takes memory only for the units whose bytes differ.
ghost use Rattle.std.specs.Prelude.{◌≡◌, ◌≢◌, ℕ, ◌+◌, ◌*◌, ◌/◌, ◌<◌, ◌≤◌, ◌⊎◌, false, length, take, drop, get_or, replicate, IfOk};
ghost use Rattle.std.specs.Borrow.{sem};
ghost use Rattle.hm_base.specs.Lists.{zeros};
ghost use Rattle.hm_outside.specs.Piece.{bytes_in};
ghost use Rattle.hm_frames.specs.Units.{bytes_kept, is_own, own_units, AreKept};
ghost use Rattle.hm_frames.specs.OwnUnits.{none_own, OwnFilled};
ghost use Rattle.hm_frames.specs.Part.{over};
ghost use Rattle.hm_frames.specs.UnitRunLends.{LendsPart};
ghost use Rattle.hm_frames.specs.declared.unit.UnitBytes.TheVariants.{Same, Own};

use crate::block::{Contents, Lease, Start, allocate, deallocate};
use crate::unit::{UNIT, UnitBytes};
use hm_base::NoMemory;
use hm_outside::Piece;
use std::alloc::Global;
use std::marker::Model;

/// The bytes of a page.
const PAGE: usize = 4096;

/// Whole pages of bytes, in units. A unit in which one byte stands everywhere keeps that byte alone; the others have
/// bytes of their own in a block of raw memory, which is given back when the run is dropped. Contracts see the list of
/// all bytes, and which units have bytes of their own.
pub(crate) struct UnitRun {
    start: Start,
    contents: Contents,
    lease: Lease<Global>,
    units: Vec<UnitBytes>,
    len: usize,
    alloc: Global,
}

impl Model for UnitRun {
    ghost use Rattle.hm_frames.specs.Units.{bytes_kept, own_units};
    ghost use Rattle.hm_frames.specs.OwnUnits.{KeptRun, kept_run_code};
    ghost use Rattle.hm_frames.specs.Run.{IsWhole};

    ghost Value = { KeptRun };

    ghost coded = { kept_run_code };

    ghost view = { λ r. record {
      bytes = bytes_kept r.units.items r.contents.raw_cells;
      own = own_units r.units.items;
    } };

    ghost invariant = { λ r. IsWhole r.start r.contents r.lease r.units.items r.len r.alloc };
}

// Gives a unit bytes of its own, the same as before.
fn make_own(start: Start, contents: &mut Contents, units: &mut [UnitBytes], unit: usize)
    requires at { start.ptr ≡ contents.old.at }
    requires few { length units.old ≤ 2097152 }
    requires kept { AreKept units.old contents.old.raw_cells }
    requires within { unit < length units.old }
    ensures at { contents.new.at ≡ contents.old.at }
    ensures same { bytes_kept units.new contents.new.raw_cells ≡ bytes_kept units.old contents.old.raw_cells }
    ensures kept { AreKept units.new contents.new.raw_cells }
    ensures count { length units.new ≡ length units.old }
    ensures own { get_or units.new unit (Same 0) ≡ Own }
    ensures others { (p : ℕ) → p ≢ unit → get_or units.new p (Same 0) ≡ get_or units.old p (Same 0) }
{
    if let UnitBytes::Same(byte) = units[unit] {
        contents.fill(start, unit * UNIT, UNIT, byte);
        units[unit] = UnitBytes::Own;
    }
}

// Gives the units from the first up to the end bytes of their own, the same as before.
fn make_all_own(
    start: Start,
    contents: &mut Contents,
    units: &mut [UnitBytes],
    first: usize,
    end: usize,
)
    requires at { start.ptr ≡ contents.old.at }
    requires few { length units.old ≤ 2097152 }
    requires kept { AreKept units.old contents.old.raw_cells }
    requires within { end ≤ length units.old }
    ensures at { contents.new.at ≡ contents.old.at }
    ensures same { bytes_kept units.new contents.new.raw_cells ≡ bytes_kept units.old contents.old.raw_cells }
    ensures kept { AreKept units.new contents.new.raw_cells }
    ensures count { length units.new ≡ length units.old }
    ensures own { (p : ℕ) → first ≤ p → p < end → get_or units.new p (Same 0) ≡ Own }
    ensures others { (p : ℕ) → (p < first) ⊎ (end ≤ p) → get_or units.new p (Same 0) ≡ get_or units.old p (Same 0) }
{
    for unit in first..end {
        make_own(start, contents, units, unit);
    }
}

// Writes one byte over some of a unit. Over all of it, or where that byte stands already, no memory is touched.
fn fill_in_unit(
    start: Start,
    contents: &mut Contents,
    units: &mut [UnitBytes],
    from: usize,
    len: usize,
    byte: u8,
)
    requires at { start.ptr ≡ contents.old.at }
    requires few { length units.old ≤ 2097152 }
    requires kept { AreKept units.old contents.old.raw_cells }
    requires some { 0 < len }
    requires one { from + len ≤ 512 * (from / 512) + 512 }
    requires within { from + len ≤ length contents.old.raw_cells }
    ensures at { contents.new.at ≡ contents.old.at }
    ensures kept { AreKept units.new contents.new.raw_cells }
    ensures count { length units.new ≡ length units.old }
    ensures filled { bytes_kept units.new contents.new.raw_cells
        ≡ over (bytes_kept units.old contents.old.raw_cells) from len (replicate len byte) }
    ensures whole { len ≡ 512 → is_own (get_or units.new (from / 512) (Same 0)) ≡ false }
    ensures others { (p : ℕ) → p ≢ from / 512 → get_or units.new p (Same 0) ≡ get_or units.old p (Same 0) }
{
    let unit = from / UNIT;
    if len == UNIT {
        units[unit] = UnitBytes::Same(byte);
    } else if units[unit] != UnitBytes::Same(byte) {
        make_own(start, contents, units, unit);
        contents.fill(start, from, len, byte);
    }
}

// Writes one byte over a range, unit by unit.
fn fill(
    start: Start,
    contents: &mut Contents,
    units: &mut [UnitBytes],
    from: usize,
    len: usize,
    byte: u8,
)
    requires at { start.ptr ≡ contents.old.at }
    requires few { length units.old ≤ 2097152 }
    requires kept { AreKept units.old contents.old.raw_cells }
    requires within { from + len ≤ length contents.old.raw_cells }
    ensures at { contents.new.at ≡ contents.old.at }
    ensures kept { AreKept units.new contents.new.raw_cells }
    ensures count { length units.new ≡ length units.old }
    ensures filled { bytes_kept units.new contents.new.raw_cells
        ≡ over (bytes_kept units.old contents.old.raw_cells) from len (replicate len byte) }
    ensures own { OwnFilled (own_units units.old) from len (own_units units.new) }
{
    let end = from + len;
    let mut at = from;
    while at < end {
        let next = end.min((at / UNIT + 1) * UNIT);
        fill_in_unit(start, contents, units, at, next - at, byte);
        at = next;
    }
}

// Where the units that keep the same as the first end, or this end.
fn same_end(units: &[UnitBytes], first: usize, end: usize) -> usize
    requires some { first < end }
    requires within { end ≤ length units.now }
    ensures some { first < result }
    ensures most { result ≤ end }
    ensures same { (p : ℕ) → first ≤ p → p < result → get_or units.now p (Same 0) ≡ get_or units.now first (Same 0) }
{
    for unit in first + 1..end {
        if units[unit] != units[first] {
            return unit;
        }
    }
    end
}

impl UnitRun {
    /// Whole pages of zero bytes. None takes memory.
    pub(crate) fn zeroed(alloc: Global, pages: u32) -> Result<UnitRun, NoMemory>
        requires some { 1 ≤ pages }
        requires few { pages ≤ 262144 }
        ensures bytes { IfOk result (λ r. r.bytes ≡ zeros (4096 * pages)) }
        ensures own { IfOk result (λ r. r.own ≡ none_own (4096 * pages)) }
    {
        let len = pages as usize * PAGE;
        let units = vec![in alloc; UnitBytes::Same(0); len / UNIT]?;
        let Some((start, contents, lease)) = allocate(&alloc, len) else {
            return Err(NoMemory);
        };
        Ok(UnitRun {
            start,
            contents,
            lease,
            units,
            len,
            alloc,
        })
    }

    /// How many bytes it has.
    #[tactic(auto, using(crate::proofs::Keeping::kept_long))]
    pub(crate) fn len(&self) -> usize
        ensures { result ≡ length self.now.bytes }
    {
        self.len
    }

    /// Bytes at the front of a range, at least one: the same byte so many times, or bytes that stand in memory.
    #[tactic(auto, using(crate::proofs::Keeping::kept_long))]
    pub(crate) fn front(&self, from: usize, len: usize) -> Piece<'_>
        requires some { 0 < len }
        requires within { from + len ≤ length self.now.bytes }
        ensures some { 0 < length (bytes_in result) }
        ensures most { length (bytes_in result) ≤ len }
        ensures value { bytes_in result ≡ take (length (bytes_in result)) (drop from self.now.bytes) }
    {
        let first = from / UNIT;
        let end = same_end(&self.units, first, (from + len + (UNIT - 1)) / UNIT);
        let count = len.min(end * UNIT - from);
        match self.units[first] {
            UnitBytes::Same(byte) => Piece::Same(byte, count),
            UnitBytes::Own => Piece::Bytes(self.contents.part(self.start, from, count)),
        }
    }

    /// Some of its bytes, to be written. Their units take memory from then on.
    #[tactic(auto, using(crate::proofs::Keeping::kept_long))]
    pub(crate) fn part_mut(&mut self, from: usize, len: usize) -> &mut [u8]
        requires { from + len ≤ length self.old.bytes }
        ensures* writes_back { sem 𝓛 (LendsPart self.entry from len result) }
        ensures value { result.now ≡ take len (drop from self.old.bytes) }
    {
        let start = self.start;
        let end = (from + len + (UNIT - 1)) / UNIT;
        make_all_own(start, &mut self.contents, &mut self.units, from / UNIT, end);
        self.contents.part_mut(start, from, len)
    }

    /// Writes one byte over some of its own. Over whole units it touches no memory.
    #[tactic(auto, using(crate::proofs::Keeping::kept_long))]
    pub(crate) fn fill(&mut self, from: usize, len: usize, byte: u8)
        requires { from + len ≤ length self.old.bytes }
        ensures bytes { self.new.bytes ≡ over self.old.bytes from len (replicate len byte) }
        ensures own { OwnFilled self.old.own from len self.new.own }
    {
        let start = self.start;
        fill(start, &mut self.contents, &mut self.units, from, len, byte);
    }

    /// Makes all its bytes zero. It touches no memory.
    #[tactic(auto, using(crate::proofs::Keeping::kept_long))]
    pub(crate) fn clear(&mut self)
        ensures bytes { self.new.bytes ≡ zeros (length self.old.bytes) }
        ensures own { self.new.own ≡ none_own (length self.old.bytes) }
    {
        self.fill(0, self.len, 0);
    }
}

impl Drop for UnitRun {
    fn drop(self) {
        let UnitRun {
            start,
            contents,
            lease,
            units: _units,
            len,
            alloc,
        } = self;
        deallocate(&alloc, start, len, contents, lease);
    }
}
