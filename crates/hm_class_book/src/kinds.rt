//! The kinds of slabs, and the lists of those that are partial and empty, each with its front first.
ghost use Rattle.std.specs.Prelude.{◌≡◌, [], OnOk};
ghost use Rattle.hm_sizes.specs.Shapes.{IsShape};
ghost use Rattle.hm_class_rules.specs.Kinds.{kind, same_kind, Partial, Empty};
ghost use Rattle.hm_class_rules.specs.Stepped.{listed, front};
ghost use Rattle.hm_class_book.specs.Book.{state_in};
ghost use Rattle.hm_class_book.specs.Kinds.{kind_in};

use crate::book::Book;
use crate::changes::{put_first, remove_number};
use hm_base::NoMemory;
use hm_sizes::Shape;
use std::alloc::Global;

/// What a slab is: some but not all of its places are available, or all, or none.
#[derive(Clone, Copy, PartialEq, Eq, Drop)]
pub enum Kind {
    Partial,
    Empty,
    Neither,
}

impl Book {
    /// What a slab is.
    pub fn kind(&self, shape: &Shape, slab: u64) -> Kind
        requires { IsShape shape.now }
        ensures { kind_in result ≡ kind shape.now (state_in self.now) slab }
    {
        let (some, all) = self.availability(shape, slab);
        if some & !all {
            Kind::Partial
        } else if all {
            Kind::Empty
        } else {
            Kind::Neither
        }
    }
}

fn is_kind(kind: Kind, other: Kind) -> bool
    ensures { result ≡ same_kind (kind_in kind) (kind_in other) }
{
    match (kind, other) {
        (Kind::Partial, Kind::Partial) => true,
        (Kind::Empty, Kind::Empty) => true,
        (Kind::Neither, Kind::Neither) => true,
        _ => false,
    }
}

// The list of the slabs of a kind, where a slab was of one kind and is of another.
fn relist(
    list: &mut Vec<u64>,
    wanted: Kind,
    slab: u64,
    before: Kind,
    after: Kind,
) -> Result<(), NoMemory>
    ensures { OnOk result (list.new.items
        ≡ listed (kind_in wanted) slab (kind_in before) (kind_in after) list.old.items) }
{
    if is_kind(after, before) {
        return Ok(());
    }
    if is_kind(after, wanted) {
        return put_first(list, slab);
    }
    if is_kind(before, wanted) {
        remove_number(list, slab);
    }
    Ok(())
}

/// The partial and the empty slabs, each list with its front first.
#[derive(Drop)]
pub struct Lists {
    pub partial: Vec<u64>,
    pub empty: Vec<u64>,
}

impl Lists {
    /// No slabs.
    pub fn none(alloc: Global) -> Lists
        ensures partial { result.partial.items ≡ [] }
        ensures empty { result.empty.items ≡ [] }
    {
        Lists {
            partial: Vec::new(alloc),
            empty: Vec::new(alloc),
        }
    }

    /// A slab was of one kind, and is of another.
    pub fn file(&mut self, slab: u64, before: Kind, after: Kind) -> Result<(), NoMemory>
        ensures partial { OnOk result (self.new.partial.items
            ≡ listed Partial slab (kind_in before) (kind_in after) self.old.partial.items) }
        ensures empty { OnOk result (self.new.empty.items
            ≡ listed Empty slab (kind_in before) (kind_in after) self.old.empty.items) }
    {
        relist(&mut self.partial, Kind::Partial, slab, before, after)?;
        relist(&mut self.empty, Kind::Empty, slab, before, after)
    }

    /// The open slab from which the next place is picked.
    pub fn front(&self) -> Option<u64>
        ensures { result ≡ front self.now.partial.items self.now.empty.items }
    {
        match self.partial.first() {
            Some(slab) => Some(*slab),
            None => self.empty.first().copied(),
        }
    }
}
