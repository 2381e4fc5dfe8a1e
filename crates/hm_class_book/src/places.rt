//! Which slab an address lies in, and whether it is a place.
ghost use Rattle.std.specs.Prelude.{◌≡◌, ◌↔◌, IsTrue};
ghost use Rattle.hm_sizes.specs.Shapes.{IsShape, IsPlace, slab_of};
ghost use Rattle.hm_class_book.specs.Book.{IsStart};

use hm_sizes::{Shape, place_of};

/// Whether a slot begins at an address.
pub(crate) fn is_place(shape: &Shape, addr: u64) -> bool
    requires { IsShape shape.now }
    ensures { IsTrue result ↔ IsPlace shape.now addr }
{
    place_of(shape, addr).is_some()
}

/// Where a slab begins, unless that is past all addresses.
pub(crate) fn slab_start(shape: &Shape, slab: u64) -> Option<u64>
    ensures { IsStart shape.now slab result }
{
    match slab.checked_mul(shape.slab) {
        Some(offset) => shape.first.checked_add(offset),
        None => None,
    }
}

/// The slab in which an address lies.
#[tactic(auto, using(crate::proofs::Addresses::slab_some))]
pub(crate) fn slab_of(shape: &Shape, addr: u64) -> u64
    requires { IsShape shape.now }
    ensures { result ≡ slab_of shape.now addr }
{
    addr.saturating_sub(shape.first) / shape.slab
}
