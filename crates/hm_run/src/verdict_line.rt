//! The line that tells the verdict on a journal, and the status that goes with it.
ghost use Rattle.std.specs.Prelude.{◌≡◌, ◌++◌, OnOk, IfOk, string_bytes};
ghost use Rattle.hm_run.specs.Statuses.{code_of};
ghost use Rattle.hm_run.specs.Verdicts.{fault_word, yes_text, no_start, position_text, no_text, check_text, status_told};

use crate::status::Status;
use hm_check::{JournalFault, Verdict};
use std::alloc::{AllocError, Global};
use std::fmt::Write;

fn push_fault(out: &mut String, fault: JournalFault) -> Result<(), AllocError>
    ensures { OnOk result (string_bytes out.new ≡ string_bytes out.old ++ fault_word fault) }
{
    match fault {
        JournalFault::BadText => out.push_str("BadText"),
        JournalFault::NotLegal => out.push_str("NotLegal"),
        JournalFault::NotDrawn => out.push_str("NotDrawn"),
    }
}

fn push_yes(out: &mut String, entries: u64) -> Result<(), AllocError>
    ensures { OnOk result (string_bytes out.new ≡ string_bytes out.old ++ yes_text entries) }
{
    write!(out, "check: yes {entries} entries\n")
}

#[tactic(auto, unfolding(crate::specs::Verdicts::no_start))]
fn push_start(out: &mut String) -> Result<(), AllocError>
    ensures { OnOk result (string_bytes out.new ≡ string_bytes out.old ++ no_start) }
{
    out.push_str("check: no line ")
}

fn push_position(out: &mut String, line: u64, fault: JournalFault) -> Result<(), AllocError>
    ensures { OnOk result (string_bytes out.new ≡ string_bytes out.old ++ position_text line fault) }
{
    write!(out, "{line} ")?;
    push_fault(out, fault)?;
    out.push_str("\n")
}

fn push_no(out: &mut String, line: u64, fault: JournalFault) -> Result<(), AllocError>
    ensures { OnOk result (string_bytes out.new ≡ string_bytes out.old ++ no_text line fault) }
{
    push_start(out)?;
    push_position(out, line, fault)
}

/// The line of a verdict, with its line feed.
pub fn line_of_verdict(alloc: Global, verdict: Verdict) -> Result<String, AllocError>
    ensures { IfOk result (λ text. string_bytes text ≡ check_text verdict) }
{
    let mut out = String::new(alloc);
    match verdict {
        Verdict::Yes { entries } => push_yes(&mut out, entries)?,
        Verdict::No { line, fault } => push_no(&mut out, line, fault)?,
    }
    Ok(out)
}

/// The status that the program ends with, unless the sink fails.
pub fn status_of_verdict(verdict: Verdict) -> Status
    ensures { code_of result ≡ status_told verdict }
{
    match verdict {
        Verdict::Yes { .. } => Status::Clean,
        Verdict::No { .. } => Status::Finding,
    }
}
