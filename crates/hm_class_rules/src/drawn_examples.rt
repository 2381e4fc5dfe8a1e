//! Short histories whose choices are drawn from known words, and some that are legal and not drawn.
ghost use Rattle.std.specs.Prelude.{[]};
ghost use Rattle.hm_class_rules.specs.Rules.{IsLegal};
ghost use Rattle.hm_class_rules.specs.Drawn.{AreDrawn, IsDrawn};
ghost use Rattle.hm_class_rules.specs.DrawnExamples.{first_region, first_entries, canary_zero, first_slot, light_region, light_entries, paired, latest_source, earlier_source, undrawn, first_slots, waiting_room, oldest_released, newest_released, parked, same_index, other_index, parked_later, second_word, nothing_unparked};

/// The first entries of a region as it is, with the words of its stream; no other canary is drawn, and no
/// other slot. A free that is refused draws nothing.
pub fn first_entries()
    ensures legal { IsLegal first_region first_entries }
    ensures drawn { IsDrawn 0 0 first_region first_entries }
    ensures zero { IsDrawn 0 0 first_region canary_zero → ⊥ }
    ensures first { IsDrawn 0 0 first_region first_slot → ⊥ }
{}

/// In the light configuration a slot is given again at once, and as it is: what was written to it after its free is
/// read. The words of the canary alone are drawn.
pub fn light_entries()
    ensures legal { IsLegal light_region light_entries }
    ensures drawn { IsDrawn 0 0 light_region light_entries }
{}

/// A slot is given from the slab that became partial last, and from no other.
pub fn latest_source()
    ensures legal { IsLegal paired latest_source }
    ensures drawn { AreDrawn paired [] latest_source }
    ensures earlier_legal { IsLegal paired earlier_source }
    ensures earlier { AreDrawn paired [] earlier_source → ⊥ }
{}

/// Where no start slot is drawn, the first available slot is given, and no word is taken.
pub fn undrawn_slots()
    ensures legal { IsLegal undrawn first_slots }
    ensures drawn { AreDrawn undrawn [] first_slots }
{}

/// What left the array first leaves the ring first.
pub fn oldest_released()
    ensures legal { IsLegal waiting_room oldest_released }
    ensures drawn { AreDrawn waiting_room [] oldest_released }
    ensures newest_legal { IsLegal waiting_room newest_released }
    ensures newest { AreDrawn waiting_room [] newest_released → ⊥ }
{}

/// A retired slab takes the place of the one that was parked there, which may then be opened again.
pub fn parked_slabs()
    ensures legal { IsLegal parked same_index }
    ensures drawn { AreDrawn parked [] same_index }
    ensures other_legal { IsLegal parked other_index }
    ensures other { AreDrawn parked [] other_index → ⊥ }
{}

/// A free draws the index in the array first, and then the parking index of the slab that it retires.
pub fn second_word()
    ensures legal { IsLegal parked_later second_word }
    ensures drawn { AreDrawn parked_later [] second_word }
    ensures nothing_legal { IsLegal parked_later nothing_unparked }
    ensures nothing { AreDrawn parked_later [] nothing_unparked → ⊥ }
{}
