//! What a class region's state is after some entries, as lists with their newest members first.
ghost use Rattle.std.specs.Prelude.{◌≡◌, ◌==◌, ◌+◌, ◌-◌, ◌++◌, find, ◌*◌, ◌<◌, ◌≤◌, ◌↔◌, ◌||◌, ℕ, IsTrue, IfSome, Some, length, take, get_or, not, false, true};
ghost use Rattle.std.specs.List.{list_any, list_all, range_with_len};
ghost use Rattle.hm_model.specs.Maps.{among, without, keys};
ghost use Rattle.hm_sizes.specs.Shapes.{IsShape, place, delay, slab_of};
ghost use Rattle.hm_class_rules.specs.State.{start, is_open, has_free, is_empty};
ghost use Rattle.hm_class_rules.specs.Drawn.{first_free};
ghost use Rattle.hm_class_rules.specs.Rules.{Releases};
ghost use Rattle.hm_class_book.specs.Book.{state_in, is_index, IsStart, Marks};

use crate::places::{slab_of, slab_start};
use crate::slab_bytes::SlabBytes;
use hm_sizes::Shape;
use std::alloc::Global;
use std::collections::VecDeque;

/// A slab that is open.
#[derive(Drop)]
pub struct OpenSlab {
    pub bytes: SlabBytes,
    pub canary: u64,
}

/// The state of a class region.
#[derive(Drop)]
pub struct Book {
    pub live: Vec<(u64, u64)>,
    pub quarantined: Vec<u64>,
    pub condemned: Vec<u64>,
    pub given: VecDeque<u64>,
    pub frees: VecDeque<u64>,
    pub opens: Vec<(u64, OpenSlab)>,
    pub parked: Vec<u64>,
    pub shut: Vec<u64>,
    pub next: u64,
    pub faults: u64,
}

/// The most slots that a slab has.
const MOST_SLOTS: usize = 256;

// Which slot begins at an address, where slot 0 begins at `start`. Most addresses lie in other slabs, and are not divided.
fn index_from(shape: &Shape, start: u64, addr: u64) -> Option<usize>
    requires { IsShape shape.now }
    ensures within { IfSome result (λ i. i < shape.now.slots) }
    ensures exact { (i : ℕ) → i < shape.now.slots → (addr == start + i * shape.now.slot) ≡ is_index result i }
{
    if shape.slab <= addr.wrapping_sub(start) {
        return None;
    }
    let offset = addr.checked_sub(start)?;
    let index = offset / shape.slot;
    if index < u64::from(shape.slots) && offset % shape.slot == 0 {
        Some(index as usize)
    } else {
        None
    }
}

// Which slot of a slab begins at an address. `start` is where the slab begins.
fn index_of(shape: &Shape, start: Option<u64>, addr: u64) -> Option<usize>
    requires { IsShape shape.now }
    ensures within { IfSome result (λ i. i < shape.now.slots) }
    ensures exact { (slab i : ℕ) → IsStart shape.now slab start → i < shape.now.slots
        → (addr == place shape.now slab i) ≡ is_index result i }
{
    match start {
        Some(start) => index_from(shape, start, addr),
        None => None,
    }
}

fn is_index(found: Option<usize>, index: usize) -> bool
    ensures { result ≡ is_index found index }
{
    match found {
        Some(other) => other == index,
        None => false,
    }
}

// Marks the slots of this slab that begin at one of these addresses.
fn mark(marks: &mut [bool], shape: &Shape, slab: u64, addrs: &[u64])
    requires shape { IsShape shape.now }
    requires room { shape.now.slots ≤ length marks.old }
    ensures room { length marks.new ≡ length marks.old }
    ensures marked { (i : ℕ) → i < shape.now.slots
        → get_or marks.new i false ≡ (get_or marks.old i false || among (place shape.now slab i) addrs.now) }
{
    let start = slab_start(shape, slab);
    for addr in addrs {
        if let Some(index) = index_of(shape, start, *addr) {
            marks[index] = true;
        }
    }
}

// The addresses of live blocks.
fn mark_live(marks: &mut [bool], shape: &Shape, slab: u64, live: &[(u64, u64)])
    requires shape { IsShape shape.now }
    requires room { shape.now.slots ≤ length marks.old }
    ensures room { length marks.new ≡ length marks.old }
    ensures marked { (i : ℕ) → i < shape.now.slots
        → get_or marks.new i false ≡ (get_or marks.old i false || among (place shape.now slab i) (keys live.now)) }
{
    let start = slab_start(shape, slab);
    for (addr, _) in live {
        if let Some(index) = index_of(shape, start, *addr) {
            marks[index] = true;
        }
    }
}

// Whether a slab is among those that are open.
fn has_slab(opens: &[(u64, OpenSlab)], slab: u64) -> bool
    ensures { result ≡ list_any (λ e. e.0 == slab) opens.now }
{
    for (number, _) in opens {
        if *number == slab {
            return true;
        }
    }
    false
}

// Whether some slot is not taken, by the marks of all.
fn is_some_free(taken: &[bool]) -> bool
    ensures { result ≡ list_any (λ b. not b) taken.now }
{
    for slot in taken {
        if !*slot {
            return true;
        }
    }
    false
}

// Whether no slot is taken.
fn are_all_free(taken: &[bool]) -> bool
    ensures { result ≡ list_all (λ b. not b) taken.now }
{
    for slot in taken {
        if *slot {
            return false;
        }
    }
    true
}

// The first of these indices that is not marked.
fn first_unmarked(marks: &[bool], from: usize, to: usize) -> Option<usize>
    requires { to ≤ length marks.now }
    ensures { result ≡ find (λ i. not (get_or marks.now i true)) (range_with_len from (to - from)) }
{
    for i in from..to {
        if !marks[i] {
            return Some(i);
        }
    }
    None
}

// The first index below `to` that is not marked, from `from` on and then from 0.
fn cyclic(marks: &[bool], from: usize, to: usize) -> Option<usize>
    requires from { from < to }
    requires to { to ≤ length marks.now }
    ensures value { result ≡ find (λ i. not (get_or marks.now i true))
        (range_with_len from (to - from) ++ range_with_len 0 from) }
    ensures below { IfSome result (λ i. i < to) }
{
    match first_unmarked(marks, from, to) {
        Some(index) => Some(index),
        None => first_unmarked(marks, 0, from),
    }
}

pub(crate) fn is_among(numbers: &[u64], number: u64) -> bool
    ensures { result ≡ among number numbers.now }
{
    numbers.contains(&number)
}

// The first numbers, as many as there are up to a length.
fn first_ones(numbers: &[u64], len: usize) -> &[u64]
    ensures { result.now ≡ take len numbers.now }
{
    &numbers[..len.min(numbers.len())]
}

// Whether a number is among the first of a queue, as many as there are up to a length.
fn is_among_first(numbers: &VecDeque<u64>, len: usize, number: u64) -> bool
    ensures { result ≡ among number (take len numbers.now.items) }
{
    let (front, back) = numbers.as_slices();
    let left = len.saturating_sub(front.len());
    let first = is_among(first_ones(front, len), number);
    let later = is_among(first_ones(back, left), number);
    first | later
}

// How many of these are other numbers.
pub(crate) fn count_without(numbers: &[u64], number: u64) -> usize
    ensures value { result ≡ length (without number numbers.now) }
    ensures few { result ≤ length numbers.now }
{
    let mut count = 0;
    for other in numbers {
        if *other != number {
            count += 1;
        }
    }
    count
}

impl Book {
    /// Before any entry.
    pub fn start(alloc: Global) -> Book
        ensures { state_in result ≡ start }
    {
        Book {
            live: Vec::new(alloc),
            quarantined: Vec::new(alloc),
            condemned: Vec::new(alloc),
            given: VecDeque::new(alloc),
            frees: VecDeque::new(alloc),
            opens: Vec::new(alloc),
            parked: Vec::new(alloc),
            shut: Vec::new(alloc),
            next: 0,
            faults: 0,
        }
    }

    // Which slots of a slab are live, in quarantine or condemned.
    fn marks(&self, shape: &Shape, slab: u64) -> [bool; MOST_SLOTS]
        requires shape { IsShape shape.now }
        ensures marks { Marks shape.now (state_in self.now) slab result }
        ensures room { shape.now.slots ≤ length result }
    {
        let mut marks = [false; MOST_SLOTS];
        mark_live(&mut marks, shape, slab, &self.live);
        mark(&mut marks, shape, slab, &self.quarantined);
        mark(&mut marks, shape, slab, &self.condemned);
        marks
    }

    /// Whether a slab is open.
    pub fn is_open(&self, slab: u64) -> bool
        ensures { result ≡ is_open (state_in self.now) slab }
    {
        has_slab(&self.opens, slab)
    }

    /// Whether an open slab has an available slot, and whether all are.
    pub fn availability(&self, shape: &Shape, slab: u64) -> (bool, bool)
        requires { IsShape shape.now }
        ensures some { result.0 ≡ has_free shape.now (state_in self.now) slab }
        ensures all { result.1 ≡ is_empty shape.now (state_in self.now) slab }
    {
        if !self.is_open(slab) {
            return (false, false);
        }
        let marks = self.marks(shape, slab);
        let taken = &marks[..shape.slots as usize];
        (is_some_free(taken), are_all_free(taken))
    }

    /// Whether the slot at an address is the first available one of its slab from slot `from` on, cyclically.
    pub fn is_first(&self, shape: &Shape, addr: u64, from: u32) -> bool
        requires shape { IsShape shape.now }
        requires from { from < shape.now.slots }
        ensures { IsTrue result
            ↔ first_free shape.now (state_in self.now) (slab_of shape.now addr) from ≡ Some addr }
    {
        let slab = slab_of(shape, addr);
        if !self.is_open(slab) {
            return false;
        }
        let marks = self.marks(shape, slab);
        match cyclic(&marks, from as usize, shape.slots as usize) {
            Some(first) => is_index(index_of(shape, slab_start(shape, slab), addr), first),
            None => false,
        }
    }

    /// Whether the quarantine may let go of this slot, or of none, once the book holds the freed one.
    pub fn may_release(&self, shape: &Shape, released: Option<u64>) -> bool
        ensures { IsTrue result ↔ Releases shape.now (state_in self.now) released }
    {
        match released {
            None => self.quarantined.len() as u64 <= most_quarantined(shape),
            Some(slot) => self.may_leave(shape, slot),
        }
    }

    fn may_leave(&self, shape: &Shape, slot: u64) -> bool
        ensures { IsTrue result ↔ Releases shape.now (state_in self.now) (Some slot) }
    {
        let quarantined = is_among(&self.quarantined, slot);
        let late = is_among_first(&self.frees, delay_of(shape), slot);
        let left = count_without(&self.quarantined, slot) as u64;
        quarantined && !late && left <= most_quarantined(shape)
    }
}

// How many slots the quarantine holds at most.
fn most_quarantined(shape: &Shape) -> u64
    ensures { result ≡ shape.now.array + shape.now.ring }
{
    u64::from(shape.array) + u64::from(shape.ring)
}

fn delay_of(shape: &Shape) -> usize
    ensures { result ≡ delay shape.now }
{
    shape.ring as usize + shape.array.min(1) as usize
}
