//! Edits of the links of slabs, which stand in their records.
//! Slabs are named by their indices.
ghost use Rattle.std.specs.Prelude.{◌≡◌, ◌<◌, length, Some, None, slice_set};
ghost use Rattle.hm_slab_lists.specs.Links.{links_of, metas_of, with_next, with_previous, unlinked, linked_first, linked_last, IsBelow};

use crate::ends::Ends;
use crate::slab::{Link, ListName, Slab};

/// The link of a slab is another one.
fn set_link(slabs: &mut [Slab], at: usize, link: Option<Link>)
    requires { at < length slabs.old }
    ensures links { links_of slabs.new ≡ slice_set (links_of slabs.old) at link }
    ensures metas { metas_of slabs.new ≡ metas_of slabs.old }
{
    slabs[at].link = link;
}

/// What follows a slab, if there is one and it is in a list.
fn set_next(slabs: &mut [Slab], at: Option<usize>, next: Option<usize>)
    requires { IsBelow at (length slabs.old) }
    ensures links { links_of slabs.new ≡ with_next (links_of slabs.old) at next }
    ensures metas { metas_of slabs.new ≡ metas_of slabs.old }
{
    if let Some(at) = at {
        if let Some(link) = slabs[at].link {
            set_link(slabs, at, Some(Link { next, ..link }));
        }
    }
}

/// What precedes a slab, if there is one and it is in a list.
fn set_previous(slabs: &mut [Slab], at: Option<usize>, previous: Option<usize>)
    requires { IsBelow at (length slabs.old) }
    ensures links { links_of slabs.new ≡ with_previous (links_of slabs.old) at previous }
    ensures metas { metas_of slabs.new ≡ metas_of slabs.old }
{
    if let Some(at) = at {
        if let Some(link) = slabs[at].link {
            set_link(slabs, at, Some(Link { previous, ..link }));
        }
    }
}

/// Takes the slab whose link this is out of its list: its neighbours follow one another.
pub(crate) fn unlink(slabs: &mut [Slab], at: usize, link: Link)
    requires at { at < length slabs.old }
    requires previous { IsBelow link.previous (length slabs.old) }
    requires next { IsBelow link.next (length slabs.old) }
    ensures links { links_of slabs.new ≡ unlinked (links_of slabs.old) at link }
    ensures metas { metas_of slabs.new ≡ metas_of slabs.old }
{
    set_next(slabs, link.previous, link.next);
    set_previous(slabs, link.next, link.previous);
    set_link(slabs, at, None);
}

/// Puts a slab before the first one of a list.
pub(crate) fn link_first(slabs: &mut [Slab], list: ListName, ends: Ends, at: usize)
    requires at { at < length slabs.old }
    requires first { IsBelow ends.first (length slabs.old) }
    ensures links { links_of slabs.new ≡ linked_first (links_of slabs.old) list ends at }
    ensures metas { metas_of slabs.new ≡ metas_of slabs.old }
{
    set_previous(slabs, ends.first, Some(at));
    let link = Link {
        list,
        previous: None,
        next: ends.first,
    };
    set_link(slabs, at, Some(link));
}

/// Puts a slab behind the last one of a list.
pub(crate) fn link_last(slabs: &mut [Slab], list: ListName, ends: Ends, at: usize)
    requires at { at < length slabs.old }
    requires last { IsBelow ends.last (length slabs.old) }
    ensures links { links_of slabs.new ≡ linked_last (links_of slabs.old) list ends at }
    ensures metas { metas_of slabs.new ≡ metas_of slabs.old }
{
    set_next(slabs, ends.last, Some(at));
    let link = Link {
        list,
        previous: ends.last,
        next: None,
    };
    set_link(slabs, at, Some(link));
}
