//! The changes of sizes that the large region's entries make, as a pass looks at them.
ghost use Rattle.std.specs.Prelude.{◌≡◌, ◌≤◌, [], ◌∷◌, ◌++◌, OnOk, length, drop, slice_index_or, IfOk, MatchOption};
ghost use Rattle.hm_turn.specs.Known.{IsOf, Known, KnowsCallers};
ghost use Rattle.hm_heap.specs.Regions.{entries_of};
ghost use Rattle.hm_heap.specs.Calls.{large_index};
ghost use Rattle.hm_heap.specs.Passes.{AreOf};
ghost use Rattle.hm_model.specs.Changes.{change, changes_of};
ghost use Rattle.hm_heap.specs.Changes.{Looked, HasLooked, HasJoined};

use crate::heap::Heap;
use crate::homes::large_index;
use crate::pass::Pass;
use crate::region::Region;
use core::mem::replace_with;
use hm_base::NoMemory;
use hm_model::{Call, Entry, Reply, SizeChange};
use hm_outside::{Gate, Pages};
use hm_turn::{Turn, TurnLock};
use std::alloc::Global;
use std::sync::Wait;

/// The changes that some entries make, and how many entries there were then.
#[derive(Drop)]
pub struct Changes {
    pub upto: u64,
    pub list: Vec<SizeChange>,
}

/// The change that an entry makes, if it makes one.
fn change_of(entry: &Entry) -> Option<SizeChange>
    ensures { MatchOption result (change entry.now.call entry.now.reply ≡ [])
        (λ c. change entry.now.call entry.now.reply ≡ c ∷ []) }
{
    match (&entry.call, &entry.reply) {
        (_, Reply::Given { addr, usable }) => Some(SizeChange::Put {
            addr: *addr,
            size: *usable,
        }),
        (Call::GiveBack { addr, stated: _ }, Reply::Freed) => Some(SizeChange::Gone {
            addr: *addr,
        }),
        _ => None,
    }
}

/// Adds the change that an entry makes.
fn add_change(list: &mut Vec<SizeChange>, entry: &Entry) -> Result<(), NoMemory>
    ensures { OnOk result (list.new.items ≡ list.old.items ++ change entry.now.call entry.now.reply) }
{
    if let Some(change) = change_of(entry) {
        list.push(change)?;
    }
    Ok(())
}

/// The changes that these entries make.
fn changes_of(alloc: Global, entries: &[Entry]) -> Result<Vec<SizeChange>, NoMemory>
    ensures { IfOk result (λ list. list.items ≡ changes_of entries.now) }
{
    let mut list = Vec::new(alloc);
    for entry in entries {
        add_change(&mut list, entry)?;
    }
    Ok(list)
}

impl<P: Pages> Region<P> {
    /// Its entries.
    fn entries(&self) -> &[Entry]
        ensures { result.now ≡ entries_of self.now }
    {
        match self {
            Region::Class(heap) => heap.entries(),
            Region::Large(heap) => heap.entries(),
        }
    }

    /// The changes that its entries make, from one on.
    fn changes(&self, alloc: Global, from: usize) -> (u64, Result<Vec<SizeChange>, NoMemory>)
        requires { from ≤ length (entries_of self.now) }
        ensures upto { result.0 ≡ length (entries_of self.now) }
        ensures list { IfOk result.1 (λ list. list.items ≡ changes_of (drop from (entries_of self.now))) }
    {
        let entries = self.entries();
        (entries.len() as u64, changes_of(alloc, &entries[from..]))
    }
}

/// Looks at a region's entries, once the turn is got, which is caller 0's. Where all others are joined, it sees what it
/// had seen.
fn look<R: Wait, P: Pages>(
    rt: &R,
    alloc: Global,
    lock: &TurnLock<Region<P>>,
    turn: Turn,
    from: usize,
) -> (Turn, Result<Changes, NoMemory>)
    requires lock { IsOf lock.now turn }
    requires root { turn.knows.caller ≡ 0 }
    requires from { from ≤ length turn.knows.seen }
    ensures lock { result.0.lock ≡ turn.lock }
    ensures looked { Looked from turn.knows result.0.knows result.1 }
    ensures callers { KnowsCallers result.0.knows }
    ensures still { HasJoined turn.knows → KnowsCallers turn.knows → result.0.knows.seen ≡ turn.knows.seen }
{
    let mut held = lock.take(rt, turn);
    let (upto, list) = held.value().changes(alloc, from);
    let changes = list.map(|list| Changes { upto, list });
    let mut turn = lock.give(held);
    lock.learn(&mut turn);
    (turn, changes)
}

/// The same, where the turn comes back to its place.
fn look_at<R: Wait, P: Pages>(
    rt: &R,
    alloc: Global,
    lock: &TurnLock<Region<P>>,
    turn: &mut Turn,
    from: usize,
) -> Result<Changes, NoMemory>
    requires lock { IsOf lock.now turn.old }
    requires root { turn.old.knows.caller ≡ 0 }
    requires from { from ≤ length turn.old.knows.seen }
    ensures lock { turn.new.lock ≡ turn.old.lock }
    ensures looked { Looked from turn.old.knows turn.new.knows result }
    ensures callers { KnowsCallers turn.new.knows }
    ensures still { HasJoined turn.old.knows → KnowsCallers turn.old.knows → turn.new.knows.seen ≡ turn.old.knows.seen }
{
    replace_with(
        turn,
        from,
        |turn, from|
            requires { IsOf lock.now turn × (turn.knows.caller ≡ 0) × (from ≤ length turn.knows.seen) }
            ensures { (result.0.lock ≡ turn.lock) × Looked from turn.knows result.0.knows result.1
                × KnowsCallers result.0.knows
                × (HasJoined turn.knows → KnowsCallers turn.knows → result.0.knows.seen ≡ turn.knows.seen) }
        { look(rt, alloc, lock, turn, from) },
    )
}

impl<'g, P: Pages, G: Gate> Heap<'g, P, G> {
    /// The changes that the entries of the large region make, from one on. It adds no entry.
    pub fn large_changes<R: Wait>(
        &self,
        rt: &R,
        alloc: Global,
        pass: &mut Pass,
        from: u64,
    ) -> Result<Changes, NoMemory>
        requires of { AreOf self.now.locks pass.old.turns }
        requires root { pass.old.caller ≡ 0 }
        requires from { (t : Known)
            → from ≤ length (slice_index_or pass.old.turns (large_index self.now.config) t).knows.seen }
        ensures same { pass.new ≡ record pass.old { turns = pass.new.turns } }
        ensures of { AreOf self.now.locks pass.new.turns }
        ensures looked { HasLooked pass.old pass.new (large_index self.now.config) from result }
    {
        let index = large_index(&self.config);
        look_at(
            rt,
            alloc,
            &self.locks[index],
            &mut pass.turns[index],
            from as usize,
        )
    }
}
