//! The line that names the first fault of a text that is no trace.
ghost use Rattle.std.specs.Prelude.{◌≡◌, ◌++◌, OnOk, IfOk, string_bytes};
ghost use Rattle.hm_run.specs.Endings.{kind_text, fault_start, fault_text, fault_line};

use hm_trace::{FaultKind, TraceFault};
use std::alloc::{AllocError, Global};
use std::fmt::Write;

fn push_kind(out: &mut String, kind: FaultKind) -> Result<(), AllocError>
    ensures { OnOk result (string_bytes out.new ≡ string_bytes out.old ++ kind_text kind) }
{
    match kind {
        FaultKind::AfterEnd => out.push_str("AfterEnd"),
        FaultKind::LineTooLong => out.push_str("LineTooLong"),
        FaultKind::NotAscii => out.push_str("NotAscii"),
        FaultKind::BadHeader => out.push_str("BadHeader"),
        FaultKind::BadWord => out.push_str("BadWord"),
        FaultKind::BadName => out.push_str("BadName"),
        FaultKind::BadNumber => out.push_str("BadNumber"),
        FaultKind::TooManyThreads => out.push_str("TooManyThreads"),
        FaultKind::TooManyRounds => out.push_str("TooManyRounds"),
        FaultKind::TooManySteps => out.push_str("TooManySteps"),
        FaultKind::TooManyNotes => out.push_str("TooManyNotes"),
        FaultKind::NameSetTwice => out.push_str("NameSetTwice"),
        FaultKind::NoEnd => out.push_str("NoEnd"),
    }
}

#[tactic(auto, unfolding(crate::specs::Endings::fault_start))]
fn push_start(out: &mut String) -> Result<(), AllocError>
    ensures { OnOk result (string_bytes out.new ≡ string_bytes out.old ++ fault_start) }
{
    out.push_str("fault: trace line ")
}

fn push_fault(out: &mut String, line: u64, kind: FaultKind) -> Result<(), AllocError>
    ensures { OnOk result (string_bytes out.new ≡ string_bytes out.old ++ fault_text line kind) }
{
    write!(out, "{line} ")?;
    push_kind(out, kind)?;
    out.push_str("\n")
}

/// The line of a fault, with its line feed.
pub fn line_of_fault(alloc: Global, fault: &TraceFault) -> Result<String, AllocError>
    ensures { IfOk result (λ text. string_bytes text ≡ fault_line fault.now) }
{
    let mut out = String::new(alloc);
    push_start(&mut out)?;
    push_fault(&mut out, fault.line, fault.kind)?;
    Ok(out)
}
