//! The summary of a run: the line of its counts, and whether an answer is a finding.
ghost use Rattle.std.specs.Prelude.{◌≡◌, ◌++◌, length, IfOk, OnOk, string_bytes};
ghost use Rattle.hm_report.specs.Findings.{has_finding};
ghost use Rattle.hm_report.specs.Summary.{step_count, counts_of, number_text, end_text, counts_line, summary_text};

use crate::counts::Counts;
use crate::{Results, has_finding};
use hm_base::NoMemory;
use std::alloc::{AllocError, Global};
use std::fmt::Write;

/// The summary of a run, and whether an answer among its results is a finding.
#[derive(Debug, Drop)]
pub struct RunSummary {
    pub text: Vec<u8>,
    pub found: bool,
}

/// The summary of a run of the stress trace of this seed: one line; and whether an answer is a finding.
pub fn summary(alloc: Global, seed: u64, results: &[Results]) -> Result<RunSummary, NoMemory>
    ensures text { IfOk result (λ summary. summary.text.items ≡ summary_text seed results.now) }
    ensures found { IfOk result (λ summary. summary.found ≡ has_finding results.now) }
{
    let counts = Counts::of(results);
    let mut out = String::new(alloc);
    push_line(&mut out, seed, step_count(results), &counts)?;
    Ok(RunSummary {
        text: out.into_bytes(),
        found: is_found(&counts, results),
    })
}

/// Whether some answer is a finding. Where each result is of a kind that has a word, none is.
fn is_found(counts: &Counts, results: &[Results]) -> bool
    requires { counts.now ≡ counts_of results.now }
    ensures { result ≡ has_finding results.now }
{
    counts.other > 0 && has_finding(results)
}

fn push_line(out: &mut String, seed: u64, steps: u128, counts: &Counts) -> Result<(), AllocError>
    ensures { OnOk result (string_bytes out.new ≡ string_bytes out.old ++ counts_line seed steps counts.now) }
{
    write!(out, "stress {seed}: steps {steps}")?;
    push_count(out, "given", counts.given)?;
    push_count(out, "written", counts.written)?;
    push_count(out, "size", counts.size)?;
    push_count(out, "bytes", counts.bytes)?;
    push_count(out, "freed", counts.freed)?;
    push_count(out, "skipped", counts.skipped)?;
    push_end(out, counts.other)
}

fn push_count(out: &mut String, word: &str, count: u128) -> Result<(), AllocError>
    ensures { OnOk result (string_bytes out.new ≡ string_bytes out.old ++ number_text word.now count) }
{
    write!(out, " {word} {count}")
}

/// Adds the end of the line.
fn push_end(out: &mut String, others: u128) -> Result<(), AllocError>
    ensures { OnOk result (string_bytes out.new ≡ string_bytes out.old ++ end_text others) }
{
    if others > 0 {
        write!(out, " other {others}")?;
    }
    out.push_str("\n")
}

/// How many results there are. The lengths of many lists may sum to more than 64 bits hold.
fn step_count(results: &[Results]) -> u128
    ensures { result ≡ step_count results.now }
{
    results.iter().map(|script| steps_in(script) as u128).sum()
}

fn steps_in(script: &Results) -> usize
    ensures { result ≡ length script.now.items }
{
    script.items.items().len()
}
