//! Laws of what resizing, answers, the light configuration and notes come to, over the histories and the results that
//! `replay` hands out. Each law is the contract of a function that does nothing. No crate of the program stands on these.
#![tactic(auto)]

ghost use Rattle.std.specs.Prelude.{ℕ};
ghost use Rattle.hm_heap.specs.declared.close.Closed.{Closed};
ghost use Rattle.hm_run.specs.declared.words.Options.{Options};
ghost use Rattle.hm_laws.specs.Answers.{AnswersHaveCauses, SkippedSteps};
ghost use Rattle.hm_laws.specs.Kept.{BytesKept};
ghost use Rattle.hm_laws.specs.Light.{TellsNoOverwrite, AnswersNoOverwrite, GivenAsLeft, FreedAsZero};
ghost use Rattle.hm_laws.specs.Moves.{BytesFetched, BytesFilled, MovesKeep, HalvesKeep};
ghost use Rattle.hm_laws.specs.Notes.{TextsWithoutNotes, RunsWithoutNotes, ReportsWithoutNotes};

use hm_outside::Pages;
use hm_trace::first_version;

/// As long as a block is live, nothing but fills changes a byte of it, or of a slot's canary.
pub fn bytes_are_kept<P: Pages>()
    ensures { (o : Options) (closed : Closed P) (index : ℕ) (p : P) → BytesKept P.Pages o closed index p }
{}

/// Over pages that tell, what a fetch replies are the bytes of its range, and what a fill was asked to write stands there
/// after it.
pub fn bytes_are_copied<P: Pages>()
    ensures fetched { (o : Options) (closed : Closed P) → BytesFetched P.Pages o closed }
    ensures filled { (o : Options) (closed : Closed P) → BytesFilled P.Pages o closed }
{}

/// Where a realloc of a block gives another one, the bytes of the old block, as many as the lesser of its usable size and
/// the size that was asked for, are the first of the new one, over pages that tell. Where it stops half way, no call of it
/// took a block back.
pub fn moves_keep_bytes<P: Pages>()
    ensures moved { (o : Options) (closed : Closed P) → MovesKeep P.Pages o closed }
    ensures half { (o : Options) (closed : Closed P) → HalvesKeep P.Pages o closed }
{}

/// Each answer comes exactly where the calls that its step made, in their order, were replied to so; by the step's
/// words alone where it made none. A step that was skipped made none.
pub fn answers_have_causes<P: Pages>()
    ensures answered { (o : Options) (closed : Closed P) → AnswersHaveCauses P.Pages o closed }
    ensures skipped { (o : Options) (closed : Closed P) → SkippedSteps P.Pages o closed }
{}

/// Where reuse is not checked, no reply and no answer tells an overwrite. A given slot has the bytes that it had, or
/// zeros where a slab was opened for it; and when a slot is freed, its usable bytes are zero.
pub fn reuse_is_not_told<P: Pages>()
    ensures overwritten { (o : Options) (closed : Closed P) (index : ℕ) (p : P)
        → TellsNoOverwrite P.Pages o closed index p }
    ensures answers { (o : Options) (closed : Closed P) → AnswersNoOverwrite P.Pages o closed }
    ensures given { (o : Options) (closed : Closed P) (index : ℕ) (p : P) → GivenAsLeft P.Pages o closed index p }
    ensures freed { (o : Options) (closed : Closed P) (index : ℕ) (p : P) → FreedAsZero P.Pages o closed index p }
{}

/// The text of a trace without its notes' lines is that of the trace of version 1 with its scripts, of which the same
/// histories and results come; and the report of the one is that of the other with the notes' lines between.
pub fn notes_change_lines_alone<P: Pages>()
    ensures texts { TextsWithoutNotes }
    ensures runs { (o : Options) (closed : Closed P) → RunsWithoutNotes P.Pages o closed }
    ensures reports { (o : Options) (closed : Closed P) → ReportsWithoutNotes o closed }
{
    first_version();
}
