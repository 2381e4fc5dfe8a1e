//! What is true of verdicts.
ghost use Rattle.hm_check.specs.FirstFaults.{NoIsFirstFault, NoneGoesOn};
ghost use Rattle.hm_check.specs.Journals.{YesIsJournal};
ghost use Rattle.hm_check.specs.Verdicts.{OneVerdict};

/// A text has one verdict at most.
pub fn one_verdict()
    ensures { OneVerdict }
{}

/// The verdict is `Yes` exactly for the journals of legal and drawn histories of all regions.
pub fn yes_is_journal()
    ensures { YesIsJournal }
{}

/// The verdict is `No` exactly where some journal of legal and drawn histories begins with the lines before the one at
/// fault, and with that line no journal at all does, or only ones that are not legal, or legal ones and none that is drawn.
/// So of no journal of legal and drawn histories do the lines up to it stand at the front.
pub fn no_is_first_fault()
    ensures exact { NoIsFirstFault }
    ensures none { NoneGoesOn }
{}
