//! Laws of lawful histories, whatever the region. Each function does nothing of its own: its contract is the
//! law.
ghost use Rattle.hm_heap.specs.Laws.{BlocksApart, BlocksDelayed, BlocksZeroed, FrontsLawful, HomesOfBlocks, RegionsApart};
ghost use Rattle.hm_heap.specs.Laws.{SlotsDelayed, SlotsWritten, SlotsZeroed};
ghost use Rattle.hm_heap.specs.Telling.{FreesServed};

use hm_outside::Pages;
use hm_sizes::home_laws;

/// What a lawful history begins with is lawful, so the other laws hold after any number of its entries.
pub fn lawful_fronts()
    ensures { FrontsLawful }
{}

/// The home of each address of a live block is the block's region.
pub fn homes_of_blocks()
    ensures { HomesOfBlocks }
{
    home_laws();
}

/// No two live blocks share an address, in one region or across regions.
pub fn apart_blocks()
    ensures blocks { BlocksApart }
    ensures regions { RegionsApart }
{
    home_laws();
    homes_of_blocks();
}

/// All bytes of a given block are zero: of a slot the usable ones, where they are told and reuse is checked. One that is
/// not was written by a fill since the slot's latest free and its slab's latest opening.
pub fn zeroed_blocks()
    ensures slots { SlotsZeroed }
    ensures written { SlotsWritten }
    ensures blocks { BlocksZeroed }
{}

/// A freed slot, or the range of a freed block below 32 MiB, is given again only after a stated number of
/// further frees.
pub fn delayed_blocks()
    ensures slots { SlotsDelayed }
    ensures blocks { BlocksDelayed }
{}

/// Over pages that tell, a free that lacks memory is not of a live block with its size and canary right, or it is of a
/// large block of which a free met a page fault.
pub fn served_frees<P: Pages>()
    ensures { FreesServed P.told }
{}
