//! What is said of a block that is given back, before anything is changed.
ghost use Rattle.std.specs.Prelude.{◌≡◌};
ghost use Rattle.hm_class_rules.specs.Rules.{wrong_size};
ghost use Rattle.hm_class.specs.Judgements.{Judgements, Measures};
ghost use Rattle.hm_class.specs.Sources.{AreWhole};

use crate::identity::Identity;
use crate::slabs::{Slabs, Slot};
use crate::slot_bytes::other_canary;
use hm_model::Reply;
use hm_outside::Pages;
use hm_sizes::{Shape, block_size};

// The size of the blocks and that of the stated size, where they differ.
fn wrong_size(shape: &Shape, stated: Option<u64>) -> Option<(u64, u64)>
    ensures { result ≡ wrong_size shape.now stated }
{
    let size = block_size(stated?);
    let block = shape.class_size();
    if size == block {
        None
    } else {
        Some((block, size))
    }
}

/// Judges a block that is given back.
pub fn judge<P: Pages>(
    slabs: &Slabs,
    pages: &P,
    identity: &Identity,
    addr: u64,
    stated: Option<u64>,
) -> Result<Slot, Reply>
    requires whole { AreWhole identity.now.shape slabs.now.slabs }
    ensures { Judgements P.Pages identity.now.shape slabs.now pages.now addr stated result }
{
    let slot = slabs.judge(identity, addr)?;
    if let Some((block, stated)) = wrong_size(&identity.shape, stated) {
        return Err(Reply::WrongSize { block, stated });
    }
    if identity.shape.has_bytes() {
        let kept = slabs.canary_of(slot.slab);
        if let Some(found) = other_canary(pages, addr + identity.shape.usable(), kept) {
            return Err(Reply::Canary { kept, found });
        }
    }
    Ok(slot)
}

/// The usable size of the live block at an address, or why none is live there.
pub fn measure(slabs: &Slabs, identity: &Identity, addr: u64) -> Reply
    requires whole { AreWhole identity.now.shape slabs.now.slabs }
    ensures { Measures identity.now.shape slabs.now addr result }
{
    match slabs.judge(identity, addr) {
        Err(refusal) => refusal,
        Ok(_) => Reply::Usable(identity.shape.usable()),
    }
}
