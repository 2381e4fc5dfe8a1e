//! The notes of a trace as a report takes them.
ghost use Rattle.std.specs.Prelude.{◌≡◌, ◌≤◌, ◌∷◌, ◌++◌, [], true, length, IfOk, OnOk};
ghost use Rattle.hm_report.specs.Findings.{notes_ascend};
ghost use Rattle.hm_run.specs.Endings.{notes_in};

use hm_base::List;
use hm_report::{Note, RoundNotes};
use hm_trace::Round;
use std::alloc::{AllocError, Global};

/// The notes of each round. They are copied, so that the trace need not be kept for them.
pub(crate) fn notes_of(alloc: Global, rounds: &[Round]) -> Result<Vec<RoundNotes>, AllocError>
    requires { length rounds.now ≤ 1024 }
    ensures exact { IfOk result (λ notes. notes.items ≡ notes_in 1 rounds.now) }
    ensures order { IfOk result (λ notes. notes_ascend notes.items ≡ true) }
{
    let notes = copied(alloc, rounds)?;
    Ok(notes)
}

fn copied(alloc: Global, rounds: &[Round]) -> Result<Vec<RoundNotes>, AllocError>
    requires { length rounds.now ≤ 1024 }
    ensures { IfOk result (λ notes. notes.items ≡ notes_in 1 rounds.now) }
{
    let mut all = Vec::new(alloc);
    for (index, round) in rounds.iter().enumerate() {
        let notes = List::of(copies_of(alloc, round.notes())?);
        push_notes(&mut all, index as u32 + 1, notes)?;
    }
    Ok(all)
}

fn push_notes(all: &mut Vec<RoundNotes>, round: u32, notes: List<Note>) -> Result<(), AllocError>
    ensures { OnOk result (all.new.items ≡ all.old.items ++ (record { round = round; notes = notes }) ∷ []) }
{
    all.push(RoundNotes { round, notes })?;
    Ok(())
}

fn copies_of(alloc: Global, notes: &[Note]) -> Result<Vec<Note>, AllocError>
    ensures { IfOk result (λ copies. copies.items ≡ notes.now) }
{
    let mut copies = Vec::new(alloc);
    for note in notes {
        copies.push(note.copy(alloc)?)?;
    }
    Ok(copies)
}
