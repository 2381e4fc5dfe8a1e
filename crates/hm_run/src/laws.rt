//! Laws of how runs end, and of the histories that they hand out. Each function does nothing of its own: its
//! contract is the law.
ghost use Rattle.std.specs.Prelude.{◌≡◌, ◌<◌, ◌≤◌, ◌⊎◌, ℕ, ◌||◌, List, ◌++◌, None, Some, String, length};
ghost use Rattle.hm_outside.specs.Streams.{Put};
ghost use Rattle.std.specs.declared.alloc.Global.{Global};
ghost use Rattle.hm_trace.specs.declared.fault.TraceFault.{TraceFault};
ghost use Rattle.hm_trace.specs.Faults.{text_fault};
ghost use Rattle.hm_trace.specs.Spelling.{spelling};
ghost use Rattle.hm_trace.specs.Traces.{IsTrace};
ghost use Rattle.hm_trace.specs.Views.{TraceView};
ghost use Rattle.hm_heap.specs.declared.close.Closed.{Closed};
ghost use Rattle.hm_report.specs.declared.results.Results.{Results};
ghost use Rattle.hm_report.specs.Findings.{has_finding};
ghost use Rattle.hm_report.specs.Marks.{tells_finding};
ghost use Rattle.hm_check.specs.declared.verdict.Verdict.{Verdict};
ghost use Rattle.hm_check.specs.Verdicts.{IsVerdict};
ghost use Rattle.hm_run.specs.Checks.{HasJournal, HasNoJournal};
ghost use Rattle.hm_run.specs.declared.run.Run.{Run};
ghost use Rattle.hm_run.specs.declared.words.Options.{Options};
ghost use Rattle.hm_run.specs.Endings.{Ends, HasFirstFault};
ghost use Rattle.hm_run.specs.Laws.{LiveBlocksApart, RegionsApart, SlotsComeLate, BlocksComeLate, SlotsAreZero, SlotsAreWritten};
ghost use Rattle.hm_run.specs.Laws.{BlocksAreZero, OverwrittenStay, ClassRefusals, LargeRefusals, JournalsTell};
ghost use Rattle.hm_run.specs.Streams.{Stream, MetFault, IsSound, IsTakenPast};
ghost use Rattle.hm_run.specs.Verdicts.{check_text, status_told};
ghost use Rattle.hm_run.specs.Findings.{counts_finding, has_own_finding};
ghost use Rattle.hm_run.specs.Words.{AsksRun, AsksReport, AsksCheck, AsksSource, AsksStress, asked_in};
ghost use Rattle.hm_run.specs.Limits.{most_bytes};
ghost use Rattle.hm_run.specs.declared.status.Status.TheVariants.{Clean, Finding, Usage, NoTrace, ReadFault, WriteFault, NoMemory, TooLong};
ghost use Rattle.hm_run.specs.Statuses.{code_of, Says};

use hm_check::{one_verdict, yes_is_journal};
use hm_class_rules::condemned_slots;
use hm_heap::{apart_blocks, delayed_blocks, zeroed_blocks};
use hm_journal::journals_differ;
use hm_outside::Pages;
use hm_report::findings_show;
use hm_trace::{spellings_are_short, spellings_have_no_fault};

/// Where the words ask for a source to be run, it has a trace, and neither it nor the sink fails, a run ends with
/// 0 or 1, or for want of memory with 6. And so where they ask for the stress trace of a seed, and the sink does
/// not fail.
pub fn runs_are_complete<P: Pages>()
    ensures source { (words : List (String Global)) (run : Run P) (source sink : Stream)
        (trace : TraceView)
        → Ends P.Pages words run source sink → AsksRun words
        → IsTrace trace → source.before ≡ Some (spelling trace) → (MetFault source → ⊥) → (MetFault sink → ⊥)
        → (run.status ≡ code_of Clean) ⊎ (run.status ≡ code_of Finding) ⊎ (run.status ≡ code_of NoMemory) }
    ensures stress { (words : List (String Global)) (run : Run P) (source sink : Stream)
        → Ends P.Pages words run source sink → AsksStress words → (MetFault sink → ⊥)
        → (run.status ≡ code_of Clean) ⊎ (run.status ≡ code_of Finding) ⊎ (run.status ≡ code_of NoMemory) }
{
    spellings_have_no_fault();
    spellings_are_short();
}

/// Where the words ask for a source to be checked, it tells and has at most 67,108,864 bytes, and neither it nor the sink
/// fails, a run ends with 0 or 1, or for want of memory with 6. Where the bytes have this verdict, its line is what was
/// written, and the status is its own, or 6.
pub fn checks_are_complete<P: Pages>()
    ensures ends { (words : List (String Global)) (run : Run P) (source sink : Stream) (bytes : List ℕ)
        → Ends P.Pages words run source sink → AsksCheck words
        → source.before ≡ Some bytes → length bytes ≤ most_bytes → (MetFault source → ⊥) → (MetFault sink → ⊥)
        → (run.status ≡ code_of Clean) ⊎ (run.status ≡ code_of Finding) ⊎ (run.status ≡ code_of NoMemory) }
    ensures told { (words : List (String Global)) (run : Run P) (source sink : Stream) (bytes : List ℕ) (v : Verdict)
        → Ends P.Pages words run source sink → AsksCheck words
        → source.before ≡ Some bytes → length bytes ≤ most_bytes → (MetFault source → ⊥) → (MetFault sink → ⊥)
        → IsVerdict bytes v
        → ((run.status ≡ status_told v) × Put sink.before sink.after (check_text v)) ⊎ (run.status ≡ code_of NoMemory) }
{
    one_verdict();
}

/// Where the words ask for a source to be checked, a run ends with 0 only where it was read to its end and its bytes are
/// the journal of legal and drawn histories, and with 1 only where it was read to its end and they are none.
pub fn checks_are_exact<P: Pages>()
    ensures yes { (words : List (String Global)) (run : Run P) (source sink : Stream)
        → Ends P.Pages words run source sink → AsksCheck words → run.status ≡ code_of Clean → HasJournal source }
    ensures no { (words : List (String Global)) (run : Run P) (source sink : Stream)
        → Ends P.Pages words run source sink → AsksCheck words → run.status ≡ code_of Finding → HasNoJournal source }
{
    yes_is_journal();
    one_verdict();
}

/// A run ends with 7 only where more than 67,108,864 bytes were taken, where the source tells. And where the words ask
/// for a source to be run or checked, it tells and has more, and neither it nor the sink fails, a run ends with 7, or for
/// want of memory with 6.
pub fn too_long_is_exact<P: Pages>()
    ensures only { (words : List (String Global)) (run : Run P) (source sink : Stream)
        → Ends P.Pages words run source sink → run.status ≡ code_of TooLong → IsTakenPast most_bytes source }
    ensures long { (words : List (String Global)) (run : Run P) (source sink : Stream) (bytes : List ℕ)
        → Ends P.Pages words run source sink → AsksSource words
        → source.before ≡ Some bytes → most_bytes < length bytes → (MetFault source → ⊥) → (MetFault sink → ⊥)
        → (run.status ≡ code_of TooLong) ⊎ (run.status ≡ code_of NoMemory) }
{}

/// A run ends with 2 only where the words are not accepted. And where they are not, and the sink does not fail, a run
/// ends with 2.
pub fn usage_is_exact<P: Pages>()
    ensures only { (words : List (String Global)) (run : Run P) (source sink : Stream)
        → Ends P.Pages words run source sink → run.status ≡ code_of Usage → asked_in words ≡ None }
    ensures unaccepted { (words : List (String Global)) (run : Run P) (source sink : Stream)
        → Ends P.Pages words run source sink → asked_in words ≡ None → (MetFault sink → ⊥)
        → run.status ≡ code_of Usage }
{}

/// A run ends with 3 only where the words ask for a source to be run, and its bytes, read to their end, have a first
/// fault. And where the words ask for a source to be run, it tells and has at most 67,108,864 bytes with a first fault,
/// and neither it nor the sink fails, a run ends with 3, or for want of memory with 6.
pub fn no_trace_is_exact<P: Pages>()
    ensures only { (words : List (String Global)) (run : Run P) (source sink : Stream)
        → Ends P.Pages words run source sink → run.status ≡ code_of NoTrace → AsksRun words × HasFirstFault source }
    ensures faulty { (words : List (String Global)) (run : Run P) (source sink : Stream) (bytes : List ℕ)
        (fault : TraceFault)
        → Ends P.Pages words run source sink → AsksRun words
        → source.before ≡ Some bytes → length bytes ≤ most_bytes → text_fault bytes ≡ Some fault
        → (MetFault source → ⊥) → (MetFault sink → ⊥)
        → (run.status ≡ code_of NoTrace) ⊎ (run.status ≡ code_of NoMemory) }
{
    spellings_have_no_fault();
}

/// A run ends with 4 only where the source failed: its count of faults rose, or stands at its last value; and with 5 only
/// where the sink did. Where the count of the sink is not as before, a run ends with 5; where that of the source is not,
/// with 4, or with 5.
pub fn faults_show<P: Pages>()
    ensures source_only { (words : List (String Global)) (run : Run P) (source sink : Stream)
        → Ends P.Pages words run source sink → run.status ≡ code_of ReadFault → MetFault source }
    ensures source_shows { (words : List (String Global)) (run : Run P) (source sink : Stream)
        → Ends P.Pages words run source sink → (IsSound source → ⊥)
        → (run.status ≡ code_of ReadFault) ⊎ (run.status ≡ code_of WriteFault) }
    ensures sink_only { (words : List (String Global)) (run : Run P) (source sink : Stream)
        → Ends P.Pages words run source sink → run.status ≡ code_of WriteFault → MetFault sink }
    ensures sink_shows { (words : List (String Global)) (run : Run P) (source sink : Stream)
        → Ends P.Pages words run source sink → (IsSound sink → ⊥) → run.status ≡ code_of WriteFault }
{}

/// Where two runs wrote journals, each to a sink that was empty, tells what it holds and did not fail, and the texts are
/// the same, the configurations, the numbers and the histories are.
pub fn journals_tell<P: Pages>()
    ensures { JournalsTell P.Pages }
{
    journals_differ();
}

/// After any number of entries of each history, live blocks never overlap, in one region or across regions.
pub fn live_blocks_apart<P: Pages>()
    ensures one_region { (o : Options) (closed : Closed P) (index : ℕ) (p : P)
        → LiveBlocksApart P.Pages o closed index p }
    ensures two_regions { (o : Options) (closed : Closed P) → RegionsApart P.Pages o closed }
{
    apart_blocks();
}

/// A freed slot, or the range of a freed block below 32 MiB, is given again only after the stated number of further
/// frees.
pub fn freed_blocks_come_late<P: Pages>()
    ensures slots { (o : Options) (closed : Closed P) (index : ℕ) (p : P) → SlotsComeLate P.Pages o closed index p }
    ensures blocks { (o : Options) (closed : Closed P) (index : ℕ) (p : P) → BlocksComeLate P.Pages o closed index p }
{
    delayed_blocks();
}

/// All bytes of a given block are zero: of a slot the usable ones, where bytes are told and reuse is checked. A byte of a
/// given slot that is not zero was written by a fill, after the slot's latest free and its slab's latest opening. A slot
/// that was found overwritten is never given again.
pub fn given_blocks_are_zero<P: Pages>()
    ensures slots { (o : Options) (closed : Closed P) (index : ℕ) (p : P) → SlotsAreZero P.Pages o closed index p }
    ensures written { (o : Options) (closed : Closed P) (index : ℕ) (p : P) → SlotsAreWritten P.Pages o closed index p }
    ensures blocks { (o : Options) (closed : Closed P) (index : ℕ) (p : P) → BlocksAreZero P.Pages o closed index p }
    ensures overwritten { (o : Options) (closed : Closed P) (index : ℕ) (p : P)
        → OverwrittenStay P.Pages o closed index p }
{
    zeroed_blocks();
    condemned_slots();
}

/// Each refusal comes exactly where its cause holds, a canary, an overwrite and a trap where the pages tell; a page
/// fault occurs only where one was asked for, or had to go, and the count of faults rose.
pub fn refusals_have_causes<P: Pages>()
    ensures class { (o : Options) (closed : Closed P) (index : ℕ) (p : P) → ClassRefusals P.Pages o closed index p }
    ensures large { (o : Options) (closed : Closed P) (index : ℕ) (p : P) → LargeRefusals P.Pages o closed index p }
{}

/// Where a trace was run and the sink does not fail, a run ends with 1 exactly where an answer is a finding, and with 0
/// exactly where none is. In what `run` wrote that is exactly where a line is that of a finding. Of the histories it is
/// exactly where statistics count a finding among the entries, or an answer is a finding of a step's own, which no entry
/// has: outside, or moved by half.
pub fn findings_are_exact<P: Pages>()
    ensures results { (words : List (String Global)) (run : Run P) (source sink : Stream) (results : List Results)
        → Ends P.Pages words run source sink → run.results ≡ Some results → (MetFault sink → ⊥)
        → Says run.status (has_finding results) }
    ensures text { (words : List (String Global)) (run : Run P) (source sink : Stream) (results : List Results)
        (held text : List ℕ)
        → Ends P.Pages words run source sink → AsksReport words → run.results ≡ Some results → (MetFault sink → ⊥)
        → sink.before ≡ Some held → sink.after ≡ Some (held ++ text)
        → Says run.status (tells_finding text) }
    ensures entries { (words : List (String Global)) (run : Run P) (source sink : Stream) (results : List Results)
        (closed : Closed P)
        → Ends P.Pages words run source sink → run.results ≡ Some results → (MetFault sink → ⊥)
        → run.closed ≡ Some closed
        → Says run.status (counts_finding closed.histories || has_own_finding results) }
{
    findings_show();
}
