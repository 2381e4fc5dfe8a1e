//! Short histories that are legal, and some that are not: the definitions say of them what they should.
ghost use Rattle.hm_class_rules.specs.Rules.{IsLegal};
ghost use Rattle.hm_class_rules.specs.Examples.{seven, double_free, stated_size, small, bad_canary, write_after_free, bare, retired_slab, ringed, waiting, released_too_early, given_in_a_guard, unchecked, reused};

/// A double free, and a free with a stated size, in class 7.
pub fn frees_of_class_seven()
    ensures double_free { IsLegal seven double_free }
    ensures stated_size { IsLegal seven stated_size }
{}

/// A changed canary is refused each time.
pub fn changed_canary()
    ensures { IsLegal small bad_canary }
{}

/// A slot that was written after its free is reported when it is picked, and condemned.
pub fn overwritten_slot()
    ensures { IsLegal small write_after_free }
{}

/// A slab is retired, parked, and not opened again at once.
pub fn retired_slab()
    ensures { IsLegal bare retired_slab }
{}

/// With a ring of one a slot leaves the quarantine at the next free, and not at its own.
pub fn quarantined_slot()
    ensures waiting { IsLegal ringed waiting }
    ensures too_early { IsLegal ringed released_too_early → ⊥ }
{}

/// No slot of a guard is given.
pub fn guard_slab()
    ensures { IsLegal ringed given_in_a_guard → ⊥ }
{}

/// Without the check on reuse a slot is given as it is; a page fault is told.
pub fn unchecked_reuse()
    ensures { IsLegal unchecked reused }
{}
