//! What ties the spelling of traces to the table of faults: a text has no fault exactly where it is the
//! spelling of a trace, and of one trace alone. And how long a spelling is at most, what version 1 is by itself, and
//! that the stress traces are traces.
ghost use Rattle.std.specs.Prelude.{◌≡◌, ◌≤◌, ◌∷◌, ◌++◌, ℕ, List, None, codes, length};
ghost use Rattle.hm_trace.specs.Faults.{text_fault};
ghost use Rattle.hm_trace.specs.Spelling.{spelling};
ghost use Rattle.hm_trace.specs.Stress.{stress};
ghost use Rattle.hm_trace.specs.Traces.{IsTrace};
ghost use Rattle.hm_trace.specs.VersionOne.{AreRoundsOfOne, unnoted_spelling, unnoted_trace};
ghost use Rattle.hm_trace.specs.Views.{ScriptView, TraceView};

/// A text without a fault is the spelling of a trace.
pub fn texts_without_fault_are_spelled()
    ensures { (bytes : List ℕ) → text_fault bytes ≡ None
        → (trace : TraceView) × IsTrace trace × (bytes ≡ spelling trace) }
{}

/// The spelling of a trace has no fault.
pub fn spellings_have_no_fault()
    ensures { (trace : TraceView) → IsTrace trace → text_fault (spelling trace) ≡ None }
{}

/// Two traces of one spelling are one trace.
pub fn spellings_differ()
    ensures { (one other : TraceView) → IsTrace one → IsTrace other → spelling one ≡ spelling other
        → one ≡ other }
{}

/// The spelling of a trace has at most 67,108,864 bytes.
pub fn spellings_are_short()
    ensures { (trace : TraceView) → IsTrace trace → length (spelling trace) ≤ 67108864 }
{}

/// A trace whose text has the first line `hmtrace 1` has rounds of version 1 alone, without notes. And all rounds of
/// version 1 make such a trace, with the spelling of version 1.
pub fn first_version()
    ensures only { (trace : TraceView) (rest : List ℕ)
        → IsTrace trace → spelling trace ≡ codes "hmtrace 1" ++ 10 ∷ rest
        → (rounds : List (List ScriptView)) × AreRoundsOfOne rounds × (trace ≡ unnoted_trace rounds) }
    ensures all { (rounds : List (List ScriptView)) → AreRoundsOfOne rounds
        → IsTrace (unnoted_trace rounds) × (spelling (unnoted_trace rounds) ≡ unnoted_spelling rounds) }
{}

/// Each stress trace is a trace.
pub fn stress_is_trace()
    ensures { (seed : ℕ) → IsTrace (stress seed) }
{}
