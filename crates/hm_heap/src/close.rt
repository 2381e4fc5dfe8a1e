//! How a heap is closed, once every pass is joined: the history and the pages of each region.
ghost use Rattle.std.specs.Prelude.{◌≡◌, ℕ, ◌<◌, ◌≤◌, vec_capacity, slice_index_or, vec_len, IfOk};
ghost use Rattle.hm_sizes.specs.declared.config.Config.{Config};
ghost use Rattle.hm_turn.specs.Known.{Known, Lock, IsOf};
ghost use Rattle.hm_heap.specs.Origins.{origin_in};
ghost use Rattle.hm_heap.specs.Regions.{entries_of, origin_of};
ghost use Rattle.hm_heap.specs.Passes.{AreOf, region_at};
ghost use Rattle.hm_heap.specs.Closes.{IsEnd, IsClosed, ClosesAll, Closes};

use crate::heap::{Heap, region_at};
use crate::pass::Pass;
use crate::region::Region;
use hm_base::{List, NoMemory, RegionId};
use hm_model::EntryList;
use hm_outside::{Gate, Pages};
use hm_sizes::Config;
use hm_turn::{Turn, TurnLock};
use std::alloc::Global;

/// The history of a region. `first` is the address at which its first slab or the large space begins,
/// `faults` the last count of its pages' faults.
#[derive(Debug, Drop)]
pub struct History {
    pub region: RegionId,
    pub first: u64,
    pub entries: EntryList,
    pub faults: u64,
}

/// The histories by ascending region, and the pages of each region in the same order.
#[derive(Drop)]
pub struct Closed<P> {
    pub histories: List<History>,
    pub pages: List<P>,
}

// The history and the pages of a region.
fn end<P: Pages>(value: Region<P>, region: RegionId) -> (History, P)
    requires { region.0 ≡ (origin_of P.told value).region }
    ensures end { IsEnd P.Pages (origin_of P.told value) result.0 result.1 }
    ensures entries { result.0.entries ≡ entries_of value }
{
    let first = value.first();
    let faults = value.faults();
    let (entries, pages) = value.into_entries();
    let history = History {
        region,
        first,
        entries,
        faults,
    };
    (history, pages)
}

// Closes one lock.
fn close_one<P: Pages>(lock: TurnLock<Region<P>>, turn: Turn, region: RegionId) -> (History, P)
    requires of { IsOf lock turn }
    requires root { (turn.knows.caller ≡ 0) × (turn.knows.out ≡ 0) }
    requires region { region.0 ≡ (origin_in lock.origin).region }
    ensures { IsClosed P.Pages turn result.0 result.1 }
{
    end(lock.close(turn), region)
}

// Closes each lock, from the last on.
fn close_all<P: Pages>(
    config: &Config,
    mut locks: Vec<TurnLock<Region<P>>>,
    mut turns: Vec<Turn>,
    histories: &mut Vec<History>,
    pages: &mut Vec<P>,
)
    requires arenas { config.now.arenas ≤ 4 }
    requires of { AreOf locks.items turns.items }
    requires root { (r : ℕ) (t : Known) → r < vec_len turns
        → ((slice_index_or turns.items r t).knows.caller ≡ 0) × ((slice_index_or turns.items r t).knows.out ≡ 0) }
    requires regions { (r : ℕ) (l : Lock) → r < vec_len locks
        → (origin_in (slice_index_or locks.items r l).origin).region ≡ region_at config.now r }
    requires room { (vec_len locks ≤ vec_capacity histories.old) × (vec_len locks ≤ vec_capacity pages.old) }
    requires empty { (vec_len histories.old ≡ 0) × (vec_len pages.old ≡ 0) }
    ensures { ClosesAll P.Pages turns.items histories.new.items pages.new.items }
{
    while let Some(lock) = locks.pop() {
        let Some(turn) = turns.pop() else {
            unreachable!();
        };
        let region = region_at(config, locks.len());
        let (history, left) = close_one(lock, turn, region);
        histories.push_reserved(history);
        pages.push_reserved(left);
    }
    histories.reverse();
    pages.reverse();
}

impl<'g, P: Pages, G: Gate> Heap<'g, P, G> {
    /// What each region did, and its pages, once every pass that was split off is joined.
    pub fn close(self, alloc: Global, pass: Pass) -> Result<Closed<P>, NoMemory>
        requires of { AreOf self.locks pass.turns }
        requires root { (pass.caller ≡ 0) × (pass.out ≡ 0) }
        ensures { IfOk result (λ closed. Closes P.Pages self.entry.config self.entry.seed pass.turns
            closed.histories closed.pages) }
    {
        let Heap { config, locks, .. } = self;
        let Pass { turns, .. } = pass;
        let mut histories = Vec::with_capacity(alloc, locks.len())?;
        let mut pages = Vec::with_capacity(alloc, locks.len())?;
        close_all(&config, locks, turns, &mut histories, &mut pages);
        Ok(Closed {
            histories: List::of(histories),
            pages: List::of(pages),
        })
    }
}
