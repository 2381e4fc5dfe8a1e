//! What is said of an entry that changes nothing, and whether a page fault occurred.
ghost use Rattle.std.specs.Prelude.{◌↔◌, ◌<◌, IsTrue};
ghost use Rattle.hm_large_book.specs.Judged.{JudgesPlain};

use hm_model::{Choices, Draws, Entry, Judgement};
/// What is said of an entry that draws no word and chooses nothing, by whether its reply is allowed.
pub(crate) fn plain(allowed: bool, entry: &Entry) -> Judgement
    ensures { JudgesPlain allowed entry.now result }
{
    if !allowed | (entry.choices != Choices::none()) {
        return Judgement::NotLegal;
    }
    if entry.draws == Draws::none() {
        Judgement::Taken
    } else {
        Judgement::NotDrawn
    }
}

/// Whether a page fault occurred while an entry was made.
pub(crate) fn rose(entry: &Entry) -> bool
    ensures { IsTrue result ↔ (entry.now.faults_before < entry.now.faults_after) }
{
    entry.faults_before < entry.faults_after
}
