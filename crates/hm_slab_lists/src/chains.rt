//! Slabs in the order in which they were first opened, in four lists that are linked through their records.
//! Contracts see lists of indices and say nothing of links; a slab may be in no list.
ghost use Rattle.std.specs.Prelude.{◌≡◌, ◌<◌, ◌≤◌, length, slice_get, Some, IsOk, OnOk, OnErr};
ghost use Rattle.std.specs.Option.{option_copied, option_copied_mut};
ghost use Rattle.std.specs.Borrow.{sem};
ghost use Rattle.hm_slab_lists.specs.Links.{front};
ghost use Rattle.hm_base.specs.Members.{among};
ghost use Rattle.hm_slab_lists.specs.Lists.{list_in, is_open_in, gone, headed, ended, placed, IsLoose};
ghost use Rattle.hm_slab_lists.specs.Chained.{no_slabs, with_slab, with_lists};
ghost use Rattle.hm_slab_lists.specs.ChainsLending.{LendsMetaAt};

use crate::ends::AllEnds;
use crate::links::{link_first, link_last, unlink};
use crate::slab::{ListName, Slab};
use hm_slab_meta::SlabMeta;
use std::alloc::{AllocError, Global};
use std::marker::Model;

/// Slabs, and the lists that they are in.
#[derive(Drop)]
pub(crate) struct Chains {
    slabs: Vec<Slab>,
    ends: AllEnds,
}

impl Model for Chains {
    ghost use Rattle.std.specs.Prelude.{◌-◌};
    ghost use Rattle.hm_slab_lists.specs.Links.{links_of, metas_of, lists_of};
    ghost use Rattle.hm_slab_lists.specs.Chained.{Chained, IsChained};

    ghost Value = { Chained };

    ghost view = { λ c. record {
      metas = metas_of c.slabs.items;
      lists = lists_of (links_of c.slabs.items) c.ends;
      room = c.slabs.cap - c.slabs.len;
    } };

    ghost invariant = { λ c. IsChained c.slabs.items c.ends };
}

impl Chains {
    /// No slab.
    pub(crate) fn new(alloc: Global) -> Chains
        ensures { result ≡ no_slabs }
    {
        Chains {
            slabs: Vec::new(alloc),
            ends: AllEnds::none(),
        }
    }

    pub(crate) fn len(&self) -> usize
        ensures { result ≡ length self.now.metas }
    {
        self.slabs.len()
    }

    /// How many slabs are in a list.
    pub(crate) fn count(&self, list: ListName) -> usize
        ensures { result ≡ length (list_in self.now.lists list) }
    {
        self.ends.of(list).count
    }

    /// The first slab of a list.
    pub(crate) fn first(&self, list: ListName) -> Option<usize>
        ensures { result ≡ front (list_in self.now.lists list) }
    {
        self.ends.of(list).first
    }

    pub(crate) fn meta(&self, at: usize) -> Option<&SlabMeta>
        ensures { option_copied result ≡ slice_get self.now.metas at }
    {
        let slab = self.slabs.get(at)?;
        Some(&slab.meta)
    }

    pub(crate) fn meta_mut(&mut self, at: usize) -> Option<&mut SlabMeta>
        ensures* writes_back { sem 𝓛 (LendsMetaAt self.entry at result) }
        ensures value { option_copied_mut result ≡ slice_get self.old.metas at }
    {
        match self.slabs.get_mut(at) {
            Some(slab) => Some(slab.meta_mut()),
            None => None,
        }
    }

    /// Makes room for one more slab.
    pub(crate) fn reserve_one(&mut self) -> Result<(), AllocError>
        ensures room { OnOk result (1 ≤ self.new.room) }
        ensures more { self.old.room ≤ self.new.room }
        ensures err { OnErr result (self.new ≡ self.old) }
        ensures enough { 1 ≤ self.old.room → IsOk result }
        ensures metas { self.new.metas ≡ self.old.metas }
        ensures lists { self.new.lists ≡ self.old.lists }
    {
        self.slabs.reserve(1)
    }

    /// Adds a slab, which is in no list. It takes no memory.
    pub(crate) fn push(&mut self, meta: SlabMeta)
        requires { 1 ≤ self.old.room }
        ensures { self.new ≡ with_slab meta self.old }
    {
        self.slabs.push_reserved(Slab { meta, link: None });
    }

    /// Whether the slab is in the list.
    fn is_in(&self, at: usize, list: ListName) -> bool
        requires { at < length self.now.metas }
        ensures { result ≡ among at (list_in self.now.lists list) }
    {
        match self.slabs[at].link {
            Some(link) => link.list == list,
            None => false,
        }
    }

    /// Whether the slab is in the partial, the empty or the full list.
    pub(crate) fn is_open(&self, at: usize) -> bool
        requires { at < length self.now.metas }
        ensures { result ≡ is_open_in at self.now.lists }
    {
        self.is_in(at, ListName::Partial)
            || self.is_in(at, ListName::Empty)
            || self.is_in(at, ListName::Full)
    }

    /// Takes the slab out of the list that it is in, if it is in one.
    pub(crate) fn take_out(&mut self, at: usize)
        requires { at < length self.old.metas }
        ensures changed { self.new ≡ with_lists (gone at self.old.lists) self.old }
        ensures loose { IsLoose at self.new.lists }
    {
        if let Some(link) = self.slabs[at].link {
            let ends = self.ends.of(link.list);
            unlink(&mut self.slabs, at, link);
            self.ends.set(link.list, ends.without(at, link));
        }
    }

    /// Puts a slab, which is in no list, before the first of a list.
    pub(crate) fn put_first(&mut self, list: ListName, at: usize)
        requires at { at < length self.old.metas }
        requires loose { IsLoose at self.old.lists }
        ensures { self.new ≡ with_lists (headed list at self.old.lists) self.old }
    {
        let ends = self.ends.of(list);
        link_first(&mut self.slabs, list, ends, at);
        self.ends.set(list, ends.with_first(at));
    }

    /// Puts a slab, which is in no list, behind the last of a list.
    pub(crate) fn put_last(&mut self, list: ListName, at: usize)
        requires at { at < length self.old.metas }
        requires loose { IsLoose at self.old.lists }
        ensures { self.new ≡ with_lists (ended list at self.old.lists) self.old }
    {
        let ends = self.ends.of(list);
        link_last(&mut self.slabs, list, ends, at);
        self.ends.set(list, ends.with_last(at));
    }

    /// Moves a slab to the front of a list; where it is in that list, it stays in place.
    pub(crate) fn move_front(&mut self, list: ListName, at: usize)
        requires { at < length self.old.metas }
        ensures { self.new ≡ with_lists (placed list at self.old.lists) self.old }
    {
        if !self.is_in(at, list) {
            self.take_out(at);
            self.put_first(list, at);
        }
    }
}
