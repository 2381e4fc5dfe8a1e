//! What can and cannot be done with a region's blocks, by whom means harm or errs: laws of legal histories. Each law
//! is the contract of a function that does nothing.
#![tactic(auto)]

ghost use Rattle.hm_guarantees.specs.FreedSlots.{FreedSlots};
ghost use Rattle.hm_guarantees.specs.KeptPlaces.{KeptPlaces, PlacesApart};
ghost use Rattle.hm_guarantees.specs.KeptBytes.{LiveBytes, KeptBytes};
ghost use Rattle.hm_guarantees.specs.Canaries.{CanariesFit};
ghost use Rattle.hm_guarantees.specs.EvenDraws.{DrawsAreEven, EverySlotCanCome, QuarantinePlacesAreEven, BlockPlacesAreEven, GuardsAreEven};
ghost use Rattle.hm_guarantees.specs.ContainedFills.{ContainedFills};
ghost use Rattle.hm_guarantees.specs.FillsSteerNothing.{FillsSteerNothing};
ghost use Rattle.hm_guarantees.specs.FoundOverflows.{FoundOverflows};
ghost use Rattle.hm_guarantees.specs.FoundWrites.{FoundWrites};
ghost use Rattle.hm_guarantees.specs.FreedBlocks.{FreedBlocks, FreedBytes};
ghost use Rattle.hm_guarantees.specs.FreesOfLive.{FreesOfLiveSlots, FreesOfLiveBlocks};
ghost use Rattle.hm_guarantees.specs.FreshBytes.{FreshSlots, FreshBlocks};
ghost use Rattle.hm_guarantees.specs.KeptBlocks.{LiveBlockBytes, KeptBlockBytes, ContainedBlockFills};
ghost use Rattle.hm_guarantees.specs.Overruns.{OverrunsTrap};
ghost use Rattle.hm_guarantees.specs.SameLargeTurns.{SameLargeTurns, SameLargeCalls, BlockFillsSteerNothing};
ghost use Rattle.hm_guarantees.specs.WritesSteerNothing.{WritesSteerNothing};
ghost use Rattle.hm_guarantees.specs.SameTurns.{SameTurns, SameCalls};

/// From a free of a slot until it is given again, each further free of it and each question for its size is refused as
/// a double free and changes nothing, and no block that shares an address with it is given.
pub fn freed_slots()
    ensures { FreedSlots }
{}

/// Each slot that is given is one of the slots of a slab that is no guard; so two that were ever given are one slot, or
/// share no address.
pub fn kept_places()
    ensures places { KeptPlaces }
    ensures apart { PlacesApart }
{}

/// As long as a slot is live, each of its usable bytes and each byte of its canary stands there, and is what the latest
/// fill wrote: no other call of the region changes one.
pub fn kept_bytes()
    ensures stand { LiveBytes }
    ensures kept { KeptBytes }
{}

/// Two histories of one region of a run, over pages that tell, are the same where the same callers make the same calls
/// in the same order and the same pages fail: no reply, place or choice depends on anything else. Where bytes that were
/// read stand in as few runs as they can, the two are one history; where there is no page fault, the calls suffice.
pub fn same_turns()
    ensures turns { SameTurns }
    ensures calls { SameCalls }
{}

/// A free of a live slot, with no size stated or the right one, over pages that tell, takes it back where each byte of
/// its canary is as it was when the slot was given; where a write changed one, it is refused, and the first that was
/// changed is told.
pub fn found_overflows()
    ensures { FoundOverflows }
{}

/// Where reuse is checked, over pages that tell: a slot of which writes since its free left a usable byte nonzero is
/// not given when it is picked, but reported, with the first such byte and where it is; and none other is. Retiring and
/// purging its slab forgets what was written.
pub fn found_writes()
    ensures { FoundWrites }
{}

/// A fill within the usable bytes of a live slot changes no byte elsewhere and no canary, and no answer to any call but
/// one that reads those bytes.
pub fn contained_fills()
    ensures { ContainedFills }
{}

/// Two histories of one region of a run, over pages that tell, which differ in what is written to usable bytes of live
/// slots alone, are the same but for the bytes that are read: the same places, refusals, canaries and words.
pub fn fills_steer_nothing()
    ensures { FillsSteerNothing }
{}

/// Two such histories which differ in what is written alone, wherever it is, are the same but for the bytes that are read
/// up to the first entry of either that finds a canary changed or a freed slot overwritten.
pub fn writes_steer_nothing()
    ensures { WritesSteerNothing }
{}

/// From a free of a large block until one is given that begins there, each further free of it and each question for its
/// size is refused, and changes no block; and until one is given over it, no byte stands at any of its addresses.
pub fn freed_blocks()
    ensures refused { FreedBlocks }
    ensures gone { FreedBytes }
{}

/// As long as a large block is live, each of its bytes stands there, and is what the latest fill wrote: no other call
/// of the region changes one.
pub fn kept_blocks()
    ensures stand { LiveBlockBytes }
    ensures kept { KeptBlockBytes }
{}

/// Where reuse is checked, and of a large block always: what is read of a block, over pages that tell, was written
/// since the block was given, or is zero. No byte of a former holder is read through a new block.
pub fn fresh_bytes()
    ensures slots { FreshSlots }
    ensures blocks { FreshBlocks }
{}

/// A fill within a live large block changes no byte elsewhere, and no answer to any call but one that reads those
/// bytes.
pub fn contained_block_fills()
    ensures { ContainedBlockFills }
{}

/// A read or a write that begins in a large block and goes past its end, or begins in one of its guards, over pages
/// that tell, traps at the end, or there, and writes nothing.
pub fn overruns_trap()
    ensures { OverrunsTrap }
{}

/// Two histories of the large region of a run, over pages that tell, are the same where the same callers make the same
/// calls in the same order and the same page faults occur: no reply, address or guard depends on anything else.
/// Where there is no page fault, the calls suffice.
pub fn same_large_turns()
    ensures turns { SameLargeTurns }
    ensures calls { SameLargeCalls }
{}

/// Two such histories which differ in what fills write alone are the same but for the bytes that are read.
pub fn block_fills_steer_nothing()
    ensures { BlockFillsSteerNothing }
{}

/// Each free that is accepted takes back a block that an earlier entry gave, and that no entry since gave or took back.
pub fn frees_are_of_live_blocks()
    ensures slots { FreesOfLiveSlots }
    ensures blocks { FreesOfLiveBlocks }
{}

/// After every legal and drawn history the canary of each slab has 8 bytes, of which the lowest is 0.
pub fn canaries_fit()
    ensures { CanariesFit }
{}

/// Each number below n is drawn by as many of the words below 2^32 as one of n even parts has, or by one more; so each
/// available slot of the slab at hand is given by no fewer, and each place of a quarantine's array, and each count of
/// guard pages, by as many. That words cannot be guessed is not said.
pub fn even_draws()
    ensures draws { DrawsAreEven }
    ensures slots { EverySlotCanCome }
    ensures quarantine { QuarantinePlacesAreEven }
    ensures block_quarantine { BlockPlacesAreEven }
    ensures guards { GuardsAreEven }
{}
