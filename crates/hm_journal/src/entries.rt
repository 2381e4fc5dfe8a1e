//! Writing the line of an entry: who called, the page faults, the words drawn, the choices, the call and the
//! reply.
ghost use Rattle.std.specs.Prelude.{◌≡◌, ◌++◌, map, OnOk, string_bytes};
ghost use Rattle.std.specs.List.{join_with_byte};
ghost use Rattle.hm_journal.specs.Words.{option_word, line_text, spaced};
ghost use Rattle.hm_model.specs.declared.entry.Reply.TheVariants.{Overwritten};
ghost use Rattle.hm_journal.specs.Entries.{who_words, faults_words, draws_words, choices_words, call_words, reply_words, entry_words};

use crate::words::{push_option, push_runs};
use hm_model::{Call, Choices, Draws, Entry, Reply, Who};
use std::alloc::AllocError;
use std::fmt::Write;

fn push_who(out: &mut String, who: &Who) -> Result<(), AllocError>
    ensures { OnOk result (string_bytes out.new ≡ string_bytes out.old ++ join_with_byte 32 (who_words who.now)) }
{
    let Who {
        caller,
        round,
        thread,
        step,
        part,
    } = who;
    write!(out, "{caller} {round} {thread} {step} {part}")
}

fn push_faults(out: &mut String, entry: &Entry) -> Result<(), AllocError>
    ensures { OnOk result (string_bytes out.new ≡ string_bytes out.old ++ spaced (faults_words entry.now)) }
{
    write!(out, " {} {}", entry.faults_before, entry.faults_after)
}

fn push_draws(out: &mut String, draws: &Draws) -> Result<(), AllocError>
    ensures { OnOk result (string_bytes out.new ≡ string_bytes out.old ++ spaced (draws_words draws.now)) }
{
    let Draws { used, w0, w1, w2 } = draws;
    write!(out, " {used} {w0} {w1} {w2}")
}

fn push_options(out: &mut String, options: &[Option<u64>]) -> Result<(), AllocError>
    ensures { OnOk result (string_bytes out.new ≡ string_bytes out.old ++ spaced (map option_word options.now)) }
{
    for option in options {
        push_option(out, *option)?;
    }
    Ok(())
}

fn push_choices(out: &mut String, choices: &Choices) -> Result<(), AllocError>
    ensures { OnOk result (string_bytes out.new ≡ string_bytes out.old ++ spaced (choices_words choices.now)) }
{
    let options = [
        choices.canary,
        choices.opened,
        choices.released,
        choices.retired,
        choices.purged,
        choices.unparked,
        choices.guard,
    ];
    push_options(out, &options)
}

fn push_call(out: &mut String, call: &Call) -> Result<(), AllocError>
    ensures { OnOk result (string_bytes out.new ≡ string_bytes out.old ++ spaced (call_words call.now)) }
{
    match call {
        Call::Allot { asked, align } => write!(out, " allot {asked} {align}"),
        Call::GiveBack { addr, stated } => {
            write!(out, " giveback {addr}")?;
            push_option(out, *stated)
        }
        Call::Measure { addr } => write!(out, " measure {addr}"),
        Call::Fetch { addr, len } => write!(out, " fetch {addr} {len}"),
        Call::Fill { addr, runs } => {
            write!(out, " fill {addr}")?;
            push_runs(out, runs.pairs())
        }
    }
}

#[tactic(auto, using(std::proofs::lemmas::Fmt::hex_byte))]
fn push_overwritten(out: &mut String, addr: u64, at: u64, found: u8) -> Result<(), AllocError>
    ensures { OnOk result
        (string_bytes out.new ≡ string_bytes out.old ++ spaced (reply_words (Overwritten addr at found))) }
{
    write!(out, " 2 {addr} {at} {found:02x}")
}

fn push_reply(out: &mut String, reply: &Reply) -> Result<(), AllocError>
    ensures { OnOk result (string_bytes out.new ≡ string_bytes out.old ++ spaced (reply_words reply.now)) }
{
    match reply {
        Reply::Given { addr, usable } => write!(out, " 1 {addr} {usable}"),
        Reply::Overwritten { addr, at, found } => push_overwritten(out, *addr, *at, *found),
        Reply::Exhausted => out.push_str(" 3"),
        Reply::NoSpace => out.push_str(" 4"),
        Reply::PagesFailed => out.push_str(" 5"),
        Reply::Freed => out.push_str(" 7"),
        Reply::NoSlot => out.push_str(" 8"),
        Reply::Unused => out.push_str(" 9"),
        Reply::DoubleFree => out.push_str(" 10"),
        Reply::WrongSize { block, stated } => write!(out, " 11 {block} {stated}"),
        Reply::Canary { kept, found } => write!(out, " 12 {kept} {found}"),
        Reply::Usable(size) => write!(out, " 13 {size}"),
        Reply::Bytes(runs) => {
            out.push_str(" 14")?;
            push_runs(out, runs.pairs())
        }
        Reply::Filled => out.push_str(" 15"),
        Reply::Trap { addr } => write!(out, " 16 {addr}"),
        Reply::NotLive => out.push_str(" 17"),
    }
}

/// Adds the line of an entry.
pub(crate) fn push_entry(out: &mut String, entry: &Entry) -> Result<(), AllocError>
    ensures { OnOk result (string_bytes out.new ≡ string_bytes out.old ++ line_text (entry_words entry.now)) }
{
    push_who(out, &entry.who)?;
    push_faults(out, entry)?;
    push_draws(out, &entry.draws)?;
    push_choices(out, &entry.choices)?;
    push_call(out, &entry.call)?;
    out.push_str(" :")?;
    push_reply(out, &entry.reply)?;
    out.push_str("\n")
}
