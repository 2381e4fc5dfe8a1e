//! The texts of answers: what a line of a report says behind its number.
ghost use Rattle.std.specs.Prelude.{◌≡◌, ◌++◌, ◌∷◌, length, OnOk, string_bytes};
ghost use Rattle.hm_base.specs.Bytes.{byte_word, run_word};
ghost use Rattle.hm_report.specs.Text.{runs_text, first_difference, canary_index, overwritten_text, reply_text, cause_text, answer_text, result_text};

use crate::StepResult;
use hm_model::{Answer, Reply};
use std::alloc::AllocError;
use std::fmt::Write;

#[tactic(auto, using(std::proofs::lemmas::Fmt::hex_byte))]
fn push_byte(out: &mut String, byte: u8) -> Result<(), AllocError>
    ensures { OnOk result (string_bytes out.new ≡ string_bytes out.old ++ byte_word byte) }
{
    write!(out, "{byte:02x}")
}

#[tactic(auto, using(std::proofs::lemmas::Fmt::hex_byte))]
fn push_run(out: &mut String, byte: u8, len: u64) -> Result<(), AllocError>
    ensures { OnOk result (string_bytes out.new ≡ string_bytes out.old ++ 32 ∷ run_word (byte, len)) }
{
    write!(out, " {byte:02x}*{len}")
}

fn push_runs(out: &mut String, runs: &[(u8, u64)]) -> Result<(), AllocError>
    ensures { OnOk result (string_bytes out.new ≡ string_bytes out.old ++ runs_text runs.now) }
{
    for (byte, len) in runs {
        push_run(out, *byte, *len)?;
    }
    Ok(())
}

/// The index of the first byte in which they differ.
fn first_difference(kept: &[u8], found: &[u8]) -> usize
    requires { length kept.now ≡ length found.now }
    ensures { result ≡ first_difference kept.now found.now }
{
    for (i, byte) in kept.iter().enumerate() {
        if *byte != found[i] {
            return i;
        }
    }
    kept.len()
}

/// The first byte, lowest first, in which two canaries differ; 8 where they are equal.
fn canary_index(kept: u64, found: u64) -> usize
    ensures { result ≡ canary_index kept found }
{
    first_difference(&kept.to_le_bytes(), &found.to_le_bytes())
}

fn push_overwritten(out: &mut String, at: u64, found: u8) -> Result<(), AllocError>
    ensures { OnOk result (string_bytes out.new ≡ string_bytes out.old ++ overwritten_text at found) }
{
    write!(out, "overwritten at {at} found ")?;
    push_byte(out, found)
}

fn push_reply(out: &mut String, base: u64, reply: &Reply) -> Result<(), AllocError>
    ensures { OnOk result (string_bytes out.new ≡ string_bytes out.old ++ reply_text base reply.now) }
{
    match reply {
        Reply::Given { usable, .. } => write!(out, "given {usable}"),
        Reply::Overwritten { at, found, .. } => push_overwritten(out, *at, *found),
        Reply::Exhausted => out.push_str("exhausted"),
        Reply::NoSpace => out.push_str("no space"),
        Reply::PagesFailed => out.push_str("pages failed"),
        Reply::Freed => out.push_str("freed"),
        Reply::NoSlot => out.push_str("no slot"),
        Reply::Unused => out.push_str("unused"),
        Reply::DoubleFree => out.push_str("double free"),
        Reply::WrongSize { block, stated } => write!(out, "wrong size {block} {stated}"),
        Reply::Canary { kept, found } => write!(out, "canary at {}", canary_index(*kept, *found)),
        Reply::Usable(size) => write!(out, "size {size}"),
        Reply::Bytes(runs) => {
            out.push_str("bytes")?;
            push_runs(out, runs.pairs())
        }
        Reply::Filled => out.push_str("written"),
        Reply::Trap { addr } => write!(out, "trap at +{}", addr.saturating_sub(base)),
        Reply::NotLive => out.push_str("not live"),
    }
}

fn push_cause(out: &mut String, base: u64, cause: &Reply) -> Result<(), AllocError>
    ensures { OnOk result (string_bytes out.new ≡ string_bytes out.old ++ cause_text base cause.now) }
{
    match cause {
        Reply::Trap { .. } => out.push_str("trap"),
        reply => push_reply(out, base, reply),
    }
}

fn push_answer(out: &mut String, base: u64, answer: &Answer) -> Result<(), AllocError>
    ensures { OnOk result (string_bytes out.new ≡ string_bytes out.old ++ answer_text base answer.now) }
{
    match answer {
        Answer::Reply(reply) => push_reply(out, base, reply),
        Answer::Overflow => out.push_str("overflow"),
        Answer::BadAlignment => out.push_str("bad alignment"),
        Answer::TooLarge => out.push_str("too large"),
        Answer::Outside => out.push_str("outside"),
        Answer::Busy => out.push_str("busy"),
        Answer::HalfMoved { usable, cause, .. } => {
            write!(out, "half moved {usable}: ")?;
            push_cause(out, base, cause)
        }
        Answer::Kept { usable, .. } => write!(out, "kept {usable}"),
        Answer::Nothing => out.push_str("nothing"),
    }
}

/// Adds the text of a step's result.
pub(crate) fn push_result(out: &mut String, step: &StepResult) -> Result<(), AllocError>
    ensures { OnOk result (string_bytes out.new ≡ string_bytes out.old ++ result_text step.now) }
{
    match &step.answer {
        Some(answer) => push_answer(out, step.base, answer),
        None => out.push_str("skipped"),
    }
}
