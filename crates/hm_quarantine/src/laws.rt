//! Laws of what is released. The function does nothing: its contract is the law.
ghost use Rattle.hm_quarantine.specs.Delay.{Delays, HoldsFew};
ghost use Rattle.hm_quarantine.specs.LookingBack.{LooksBack};

/// What is released is what looking back through the frees finds, and it has stood in quarantine long
/// enough. No more slots stand there than the array and the ring have cells.
pub fn release_laws()
    ensures looks_back { LooksBack }
    ensures delays { Delays }
    ensures holds_few { HoldsFew }
{}
