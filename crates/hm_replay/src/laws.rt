//! Laws of rounds one after another on a new heap. Each function does nothing of its own: its contract is the
//! law.
ghost use Rattle.hm_replay.specs.Replays.{NewReplays, RoundsGoOn, ReplaysClose, EntriesAreOfTrace, ResultsAscend, FewEntries, RoundsAreSmall};
ghost use Rattle.hm_replay.specs.Watched.{LooksKeep, NumbersGoOn, NumbersClose};

/// What is known of the first pass after some rounds, and of the histories when the heap is closed; and that
/// the results stand in the order of a report.
pub fn replayed_rounds()
    ensures first { NewReplays }
    ensures more { RoundsGoOn }
    ensures closed { ReplaysClose }
    ensures entries { EntriesAreOfTrace }
    ensures order { ResultsAscend }
    ensures few { FewEntries }
{}

/// What is known of looks at a region's entries between rounds, and of numbers that are made after each round, of what the
/// first pass has seen of a region by then: when the heap is closed, they are of the entries of the rounds up to each one.
pub fn watched_rounds()
    ensures looks { LooksKeep }
    ensures more { NumbersGoOn }
    ensures closed { NumbersClose }
{}

/// A round has at most 64 scripts, one for each thread.
pub fn small_rounds()
    ensures { RoundsAreSmall }
{}
