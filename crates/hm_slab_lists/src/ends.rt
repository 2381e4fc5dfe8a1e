//! The ends of each list, and how many slabs are in it.
//! A list with no slab has no ends.
ghost use Rattle.std.specs.Prelude.{◌≡◌, ◌<◌, ◌≤◌, ◌^◌, Some, None};
ghost use Rattle.hm_slab_lists.specs.Ends.{skipped, shorter, longer_front, longer_back, ends_in, with_ends, no_ends};

use crate::slab::{Link, ListName};

/// The first and the last slab of a list, and how many there are.
#[derive(Clone, Copy, Debug)]
pub(crate) struct Ends {
    pub(crate) first: Option<usize>,
    pub(crate) last: Option<usize>,
    pub(crate) count: usize,
}

/// Those of all lists.
#[derive(Clone, Copy, Debug)]
pub(crate) struct AllEnds {
    partial: Ends,
    empty: Ends,
    full: Ends,
    retired: Ends,
}

/// A slab, or another one where it is `gone`.
fn skip(at: Option<usize>, gone: usize, instead: Option<usize>) -> Option<usize>
    ensures { result ≡ skipped gone instead at }
{
    if at == Some(gone) { instead } else { at }
}

impl Ends {
    /// Those of an empty list.
    pub(crate) fn none() -> Ends
        ensures { result ≡ no_ends }
    {
        Ends {
            first: None,
            last: None,
            count: 0,
        }
    }

    /// Without the slab at this index, whose link this is.
    pub(crate) fn without(self, at: usize, link: Link) -> Ends
        requires { 1 ≤ self.count }
        ensures { result ≡ shorter at link self }
    {
        Ends {
            first: skip(self.first, at, link.next),
            last: skip(self.last, at, link.previous),
            count: self.count - 1,
        }
    }

    /// With a slab before the first.
    pub(crate) fn with_first(self, at: usize) -> Ends
        requires { self.count < 2 ^ 63 }
        ensures { result ≡ longer_front at self }
    {
        Ends {
            first: Some(at),
            last: self.last.or(Some(at)),
            count: self.count + 1,
        }
    }

    /// With a slab behind the last.
    pub(crate) fn with_last(self, at: usize) -> Ends
        requires { self.count < 2 ^ 63 }
        ensures { result ≡ longer_back at self }
    {
        Ends {
            first: self.first.or(Some(at)),
            last: Some(at),
            count: self.count + 1,
        }
    }
}

impl AllEnds {
    /// All lists are empty.
    pub(crate) fn none() -> AllEnds
        ensures { result ≡ (record { partial = no_ends; empty = no_ends; full = no_ends; retired = no_ends }) }
    {
        AllEnds {
            partial: Ends::none(),
            empty: Ends::none(),
            full: Ends::none(),
            retired: Ends::none(),
        }
    }

    pub(crate) fn of(&self, list: ListName) -> Ends
        ensures { result ≡ ends_in self.now list }
    {
        match list {
            ListName::Partial => self.partial,
            ListName::Empty => self.empty,
            ListName::Full => self.full,
            ListName::Retired => self.retired,
        }
    }

    pub(crate) fn set(&mut self, list: ListName, ends: Ends)
        ensures { self.new ≡ with_ends self.old list ends }
    {
        match list {
            ListName::Partial => self.partial = ends,
            ListName::Empty => self.empty = ends,
            ListName::Full => self.full = ends,
            ListName::Retired => self.retired = ends,
        }
    }
}
