//! What is kept of one slab, and where it stands.
//! A slab that is in no list has no link.
ghost use Rattle.std.specs.Prelude.{◌≡◌};
ghost use Rattle.std.specs.Borrow.{sem};
ghost use Rattle.hm_slab_lists.specs.Lending.{LendsMeta};

use hm_slab_meta::SlabMeta;

/// The lists of slabs.
#[derive(Clone, Copy, Debug, PartialEq, Eq)]
pub(crate) enum ListName {
    Partial,
    Empty,
    Full,
    Retired,
}

/// Where a slab stands in a list: the indices of its neighbours.
#[derive(Clone, Copy, Debug)]
pub(crate) struct Link {
    pub(crate) list: ListName,
    pub(crate) previous: Option<usize>,
    pub(crate) next: Option<usize>,
}

/// A slab.
#[derive(Drop)]
pub(crate) struct Slab {
    pub(crate) meta: SlabMeta,
    pub(crate) link: Option<Link>,
}

impl Slab {
    pub(crate) fn meta_mut(&mut self) -> &mut SlabMeta
        ensures* writes_back { sem 𝓛 (LendsMeta self.entry result) }
        ensures value { result.now ≡ self.old.meta }
    {
        &mut self.meta
    }
}
