//! The slabs of a region by number.
//! A slab that was opened is in one of four lists or in the parking array.
ghost use Rattle.std.specs.Prelude.{◌≡◌, ◌<◌, ◌≤◌, ◌^◌, ℕ, length, replicate, slice_index_or, Some, None, true, IfOk, IsOk, OnOk, OnErr};
ghost use Rattle.std.specs.Option.{option_copied, option_copied_mut};
ghost use Rattle.std.specs.Borrow.{sem};
ghost use Rattle.std.specs.FinMap as map;
ghost use Rattle.hm_slab_lists.specs.Links.{front};
ghost use Rattle.hm_slab_lists.specs.Numbers.{nth_slab};
ghost use Rattle.hm_slab_lists.specs.Named.{list_named};
ghost use Rattle.hm_slab_lists.specs.Sources.{source_of};
ghost use Rattle.hm_slab_lists.specs.Table.{new_table, with_spare, opened_fresh, opened_retired, settled, retired, is_open};
ghost use Rattle.hm_slab_lists.specs.TableLending.{LendsMetaOf};

use crate::chains::Chains;
use crate::numbers::{index_of, number_of};
use crate::slab::ListName;
use hm_base::NoMemory;
use hm_slab_meta::SlabMeta;
use std::alloc::Global;
use std::marker::Model;

/// Where the next slot comes from: a slab that is open, one that is to be opened, or none.
#[derive(Clone, Copy, Debug)]
pub enum Place {
    Partial(u64),
    Empty(u64),
    Retired(u64),
    Fresh(u64),
    Exhausted,
}

/// The slabs of a region, the lists that they are in, and the parking array, each cell of which holds the slab that
/// was retired to it last.
#[derive(Drop)]
pub struct SlabLists {
    chains: Chains,
    parking: Vec<Option<u64>>,
    limit: u64,
    guard_interval: u64,
    slots: u32,
}

impl Model for SlabLists {
    ghost use Rattle.hm_slab_lists.specs.Table.{Table, table_code, shown, IsTable};
    ghost use Rattle.hm_slab_meta.specs.contracts.slab_meta.SlabMeta as meta;

    ghost Value = { Table };

    ghost coded = { table_code meta.the_row.coded };

    ghost view = { λ s. shown s.chains s.parking.items s.limit s.guard_interval s.slots };

    ghost invariant = { λ s. IsTable s.chains s.parking.items s.limit s.guard_interval s.slots };
}

// A parking array with nothing in it.
fn empty_parking(alloc: Global, length: u32) -> Result<Vec<Option<u64>>, NoMemory>
    ensures { IfOk result (λ v. v.items ≡ replicate length None) }
{
    let parking = vec![in alloc; None; length as usize]?;
    Ok(parking)
}

// The index of a slab: past the last one where it was never opened.
fn index_in(chains: &Chains, interval: u64, number: u64) -> usize
    requires some { 1 ≤ interval }
    requires few { interval ≤ 8 }
    ensures found { result < length chains.now.metas → nth_slab interval result ≡ number }
    ensures opened { (index : ℕ) → index < length chains.now.metas → nth_slab interval index ≡ number → result ≡ index }
{
    index_of(number, interval).unwrap_or(chains.len())
}

// The list that a slab's slots name: empty where all are available, partial where some are, else full.
fn named_list(meta: &SlabMeta) -> ListName
    ensures { result ≡ list_named meta.now }
{
    if meta.is_all_free() {
        ListName::Empty
    } else if meta.first_free_from(0).is_some() {
        ListName::Partial
    } else {
        ListName::Full
    }
}

impl SlabLists {
    /// No slab, and an empty parking array. Numbers are below `limit`, and after each `guard_interval` slabs one
    /// number is left out.
    pub fn build(
        alloc: Global,
        limit: u64,
        guard_interval: u32,
        park_length: u32,
        slots: u32,
    ) -> Result<SlabLists, NoMemory>
        requires limit { limit ≤ 2 ^ 23 }
        requires guards_some { 1 ≤ guard_interval }
        requires guards_most { guard_interval ≤ 8 }
        requires park_some { 1 ≤ park_length }
        requires park_most { park_length ≤ 32 }
        requires slots_some { 1 ≤ slots }
        requires slots_most { slots ≤ 256 }
        ensures { IfOk result (λ t. t ≡ new_table limit guard_interval park_length slots) }
    {
        let parking = empty_parking(alloc, park_length)?;
        Ok(SlabLists {
            chains: Chains::new(alloc),
            parking,
            limit,
            guard_interval: u64::from(guard_interval),
            slots,
        })
    }

    /// Where the next slot comes from.
    pub fn next_source(&self) -> Place
        ensures { result ≡ source_of self.now }
    {
        if let Some(index) = self.chains.first(ListName::Partial) {
            return Place::Partial(number_of(index, self.guard_interval));
        }
        if let Some(index) = self.chains.first(ListName::Empty) {
            return Place::Empty(number_of(index, self.guard_interval));
        }
        if let Some(index) = self.chains.first(ListName::Retired) {
            return Place::Retired(number_of(index, self.guard_interval));
        }
        let next = number_of(self.chains.len(), self.guard_interval);
        if next < self.limit {
            Place::Fresh(next)
        } else {
            Place::Exhausted
        }
    }

    /// What is kept of a slab: None where it was never opened.
    pub fn meta(&self, n: u64) -> Option<&SlabMeta>
        ensures { option_copied result ≡ map.get self.now.metas n }
    {
        self.chains
            .meta(index_in(&self.chains, self.guard_interval, n))
    }

    /// What is kept of a slab, to be changed.
    pub fn meta_mut(&mut self, n: u64) -> Option<&mut SlabMeta>
        ensures* writes_back { sem 𝓛 (LendsMetaOf self.entry n result) }
        ensures value { option_copied_mut result ≡ map.get self.old.metas n }
    {
        let index = index_in(&self.chains, self.guard_interval, n);
        self.chains.meta_mut(index)
    }

    /// Whether a slab is in the partial, the empty or the full list.
    pub fn is_open(&self, n: u64) -> bool
        ensures { result ≡ is_open n self.now }
    {
        let index = index_in(&self.chains, self.guard_interval, n);
        index < self.chains.len() && self.chains.is_open(index)
    }

    /// How many slabs are in the empty list.
    pub fn empty_count(&self) -> u64
        ensures { result ≡ length self.now.lists.empty }
    {
        self.chains.count(ListName::Empty) as u64
    }

    /// Makes room, so that the next `open_fresh` takes no memory.
    pub fn reserve_one(&mut self) -> Result<(), NoMemory>
        ensures rest { self.new ≡ with_spare self.new.spare self.old }
        ensures room { OnOk result (1 ≤ self.new.spare) }
        ensures more { self.old.spare ≤ self.new.spare }
        ensures err { OnErr result (self.new ≡ self.old) }
        ensures enough { 1 ≤ self.old.spare → IsOk result }
    {
        self.chains.reserve_one()?;
        Ok(())
    }

    /// Opens the next fresh slab.
    pub fn open_fresh(&mut self, n: u64)
        requires next { source_of self.old ≡ Place.Fresh n }
        requires room { 1 ≤ self.old.spare }
        ensures { self.new ≡ opened_fresh n self.old }
    {
        let index = self.chains.len();
        self.chains.push(SlabMeta::fresh(self.slots));
        self.chains.put_first(ListName::Empty, index);
    }

    /// Opens the first slab of the retired list, which is the one that left its parking index first.
    pub fn open_retired(&mut self, n: u64)
        requires { front self.old.lists.retired ≡ Some n }
        ensures { self.new ≡ opened_retired n self.old }
    {
        let index = index_in(&self.chains, self.guard_interval, n);
        self.chains.take_out(index);
        self.chains.put_first(ListName::Empty, index);
    }

    // Moves a slab to the front of the list that its slots name, if it is not in that list.
    fn settle(&mut self, n: u64)
        requires { is_open n self.old ≡ true }
        ensures { self.new ≡ settled n self.old }
    {
        let index = index_in(&self.chains, self.guard_interval, n);
        if let Some(meta) = self.chains.meta(index) {
            let list = named_list(meta);
            self.chains.move_front(list, index);
        }
    }

    /// Puts a slab of which a slot was given, or condemned, into the list that its slots name now, as
    /// `after_release` does: either serves where the slots of a slab changed.
    pub fn after_take(&mut self, n: u64)
        requires { is_open n self.old ≡ true }
        ensures { self.new ≡ settled n self.old }
    {
        self.settle(n);
    }

    /// Puts a slab of which a slot was released into the list that its slots name now, as `after_take` does:
    /// either serves where the slots of a slab changed.
    pub fn after_release(&mut self, n: u64)
        requires { is_open n self.old ≡ true }
        ensures { self.new ≡ settled n self.old }
    {
        self.settle(n);
    }

    /// Retires an open slab to a parking index. It answers the slab that stood there, if one did, which is then the
    /// last of the retired list.
    pub fn retire(&mut self, n: u64, park: u32) -> Option<u64>
        requires open { is_open n self.old ≡ true }
        requires park { park < length self.old.parking }
        ensures unparked { result ≡ slice_index_or self.old.parking park None }
        ensures changed { self.new ≡ retired n park self.old }
    {
        let index = index_in(&self.chains, self.guard_interval, n);
        self.chains.take_out(index);
        let before = self.parking[park as usize].replace(n)?;
        let index = index_in(&self.chains, self.guard_interval, before);
        self.chains.put_last(ListName::Retired, index);
        Some(before)
    }
}
