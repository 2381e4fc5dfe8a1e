//! What stands between rounds where the sizes of large blocks are watched: what changed is published, and the sum is read.
ghost use Rattle.std.specs.Prelude.{◌≡◌, ◌<◌, [], ◌∷◌, ◌++◌, true, fold, length, IfOk, OnOk};
ghost use Rattle.hm_heap.specs.Calls.{large_index};
ghost use Rattle.hm_heap.specs.Passes.{AreOf};
ghost use Rattle.hm_model.specs.Changes.{total_of};
ghost use Rattle.hm_snapshot.specs.Shown.{absorbed};
ghost use Rattle.hm_run.specs.Watches.{large_seen, size_sum, Follows, FollowsFront, is_on, totals_of, Tracks, TracksFront, MayHaveLooked};

use hm_base::NoMemory;
use hm_heap::{Changes, Heap, Pass};
use hm_model::SizeChange;
use hm_outside::{Gate, Pages};
use hm_snapshot::{ReaderRefusal, SizeWriter, Sizes};
use std::alloc::Global;
use std::sync::Wait;

// How many readers there are at a time.
const READERS: u32 = 1;

/// The writer of the sizes, the program's own map of them, how many entries both have taken in, and the sum after each
/// round.
pub(crate) struct Watch {
    writer: SizeWriter,
    own: Sizes,
    upto: u64,
    totals: Vec<u128>,
}

/// Whether the rounds are watched. It is not `Drop`: end it by `end`.
pub(crate) enum Watcher {
    Off,
    On(Watch),
}

// The own map takes in these changes.
fn take_in_all(own: &mut Sizes, list: &[SizeChange]) -> Result<(), NoMemory>
    ensures { OnOk result (own.new ≡ fold absorbed own.old list.now) }
{
    for change in list {
        own.take_in(*change)?;
    }
    Ok(())
}

// The sum that a new reader finds. Where there is no place for one, its read is refused, or it finds another sum, that
// of the own map stands.
fn read_total(writer: &mut SizeWriter, own: &Sizes) -> Result<u128, NoMemory>
    ensures list { writer.new.list ≡ writer.old.list }
    ensures waiting { writer.new.waiting ≡ writer.old.waiting }
    ensures total { IfOk result (λ total. total ≡ total_of own.now.map) }
{
    let own = own.total();
    match writer.reader() {
        Ok(mut reader) => match reader.total() {
            Ok(total) if total == own => Ok(total),
            _ => Ok(own),
        },
        Err(ReaderRefusal::NoPlace) => Ok(own),
        Err(ReaderRefusal::NoMemory) => Err(NoMemory),
    }
}

impl Watch {
    // Publishes what the entries of the large region have changed since the last look, and reads the sum.
    fn after_round<R: Wait, P: Pages, G: Gate>(
        &mut self,
        rt: &R,
        alloc: Global,
        heap: &Heap<'_, P, G>,
        root: &mut Pass,
    ) -> Result<(), NoMemory>
        requires of { AreOf heap.now.locks root.old.turns }
        requires root { root.old.caller ≡ 0 }
        requires index { large_index heap.now.config < length root.old.turns }
        requires front { FollowsFront self.old (large_seen heap.now.config root.old) }
        ensures of { AreOf heap.now.locks root.new.turns }
        ensures looked { MayHaveLooked heap.now.config root.old root.new }
        ensures follows { OnOk result (Follows self.new (large_seen heap.now.config root.new)) }
        ensures totals { OnOk result (self.new.totals.items
            ≡ self.old.totals.items ++ size_sum (large_seen heap.now.config root.new) ∷ []) }
    {
        let changes = heap.large_changes(rt, alloc, root, self.upto)?;
        self.count(rt, &changes)
    }

    // Publishes these changes, and reads the sum.
    fn count<R: Wait>(&mut self, rt: &R, changes: &Changes) -> Result<(), NoMemory>
        requires none { self.old.writer.waiting ≡ [] }
        ensures list { OnOk result (self.new.writer.list ≡ self.old.writer.list ++ changes.now.list.items) }
        ensures waiting { OnOk result (self.new.writer.waiting ≡ []) }
        ensures own { OnOk result (self.new.own ≡ fold absorbed self.old.own changes.now.list.items) }
        ensures upto { OnOk result (self.new.upto ≡ changes.now.upto) }
        ensures totals { OnOk result (self.new.totals.items
            ≡ self.old.totals.items ++ total_of self.new.own.map ∷ []) }
    {
        self.writer.publish(rt, &changes.list)?;
        take_in_all(&mut self.own, &changes.list)?;
        self.upto = changes.upto;
        let total = read_total(&mut self.writer, &self.own)?;
        self.totals.push(total)?;
        Ok(())
    }
}

impl Watcher {
    /// One that has seen no round yet, and is on if that is asked for.
    pub(crate) fn build(alloc: Global, watched: bool) -> Result<Watcher, NoMemory>
        ensures on { IfOk result (λ w. is_on w ≡ watched) }
        ensures tracks { IfOk result (λ w. Tracks w []) }
        ensures totals { IfOk result (λ w. totals_of w ≡ []) }
    {
        if !watched {
            return Ok(Watcher::Off);
        }
        Ok(Watcher::On(Watch {
            writer: SizeWriter::build(alloc, READERS)?,
            own: Sizes::empty(alloc),
            upto: 0,
            totals: Vec::new(alloc),
        }))
    }

    /// Where it is on, publishes what the last round has changed, and reads the sum; else it does nothing.
    #[tactic(auto, using(crate::proofs::Tracking::has_not_looked))]
    pub(crate) fn after_round<R: Wait, P: Pages, G: Gate>(
        &mut self,
        rt: &R,
        alloc: Global,
        heap: &Heap<'_, P, G>,
        root: &mut Pass,
    ) -> Result<(), NoMemory>
        requires of { AreOf heap.now.locks root.old.turns }
        requires root { root.old.caller ≡ 0 }
        requires index { large_index heap.now.config < length root.old.turns }
        requires front { TracksFront self.old (large_seen heap.now.config root.old) }
        ensures of { AreOf heap.now.locks root.new.turns }
        ensures looked { MayHaveLooked heap.now.config root.old root.new }
        ensures on { is_on self.new ≡ is_on self.old }
        ensures tracks { OnOk result (Tracks self.new (large_seen heap.now.config root.new)) }
        ensures totals { OnOk result (is_on self.old ≡ true
            → totals_of self.new ≡ totals_of self.old ++ size_sum (large_seen heap.now.config root.new) ∷ []) }
    {
        match self {
            Watcher::Off => Ok(()),
            Watcher::On(watch) => watch.after_round(rt, alloc, heap, root),
        }
    }

    /// Ends the writer, if there is one, and hands out the sums. It waits for the readers that are reading.
    pub(crate) fn end<R: Wait>(self, rt: &R, alloc: Global) -> Vec<u128>
        ensures { result.items ≡ totals_of self }
    {
        match self {
            Watcher::Off => Vec::new(alloc),
            Watcher::On(watch) => {
                let Watch {
                    writer,
                    own: _,
                    upto: _,
                    totals,
                } = watch;
                writer.end(rt);
                totals
            }
        }
    }
}
