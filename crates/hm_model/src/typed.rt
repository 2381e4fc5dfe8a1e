//! What the types of an entry's parts promise. Each part is only read, and its type says the rest: the functions do
//! nothing, and their contracts are what they are for.
ghost use Rattle.std.specs.List.{All};
ghost use Rattle.hm_model.specs.Calls.{CallRuns};
ghost use Rattle.hm_model.specs.Replies.{HasRuns};
ghost use Rattle.hm_model.specs.Typed.{Fits8, Fits32, Fits64, OptionFits, RunFits, WhoFits, DrawsFit, ChoicesFit, CallFits, ReplyFits, EntryFits, EntryRuns, IsTyped};

use crate::{Call, Choices, Draws, Entry, Reply, Who};

fn fits8(number: u8)
    ensures { Fits8 number }
{}

fn fits32(number: u32)
    ensures { Fits32 number }
{}

fn fits64(number: u64)
    ensures { Fits64 number }
{}

fn option_fits(number: Option<u64>)
    ensures { OptionFits number }
{
    match number {
        Some(number) => fits64(number),
        None => (),
    }
}

fn who_fits(who: &Who)
    ensures { WhoFits who.now }
{
    fits32(who.caller);
    fits32(who.round);
    fits32(who.thread);
    fits32(who.step);
    fits8(who.part);
}

fn draws_fit(draws: &Draws)
    ensures { DrawsFit draws.now }
{
    fits8(draws.used);
    fits32(draws.w0);
    fits32(draws.w1);
    fits32(draws.w2);
}

fn choices_fit(choices: &Choices)
    ensures { ChoicesFit choices.now }
{
    option_fits(choices.canary);
    option_fits(choices.opened);
    option_fits(choices.released);
    option_fits(choices.retired);
    option_fits(choices.purged);
    option_fits(choices.unparked);
    option_fits(choices.guard);
}

fn runs_fit(runs: &[(u8, u64)])
    ensures { All RunFits runs.now }
{
    for (byte, len) in runs {
        fits8(*byte);
        fits64(*len);
    }
}

fn call_fits(call: &Call)
    ensures { CallFits call.now }
{
    match call {
        Call::Allot { asked, align } => {
            fits64(*asked);
            fits64(*align);
        }
        Call::GiveBack { addr, stated } => {
            fits64(*addr);
            option_fits(*stated);
        }
        Call::Measure { addr } => fits64(*addr),
        Call::Fetch { addr, len } => {
            fits64(*addr);
            fits64(*len);
        }
        Call::Fill { addr, runs } => {
            fits64(*addr);
            runs_fit(runs.pairs());
        }
    }
}

fn reply_fits(reply: &Reply)
    ensures { ReplyFits reply.now }
{
    match reply {
        Reply::Given { addr, usable } => {
            fits64(*addr);
            fits64(*usable);
        }
        Reply::Overwritten { addr, at, found } => {
            fits64(*addr);
            fits64(*at);
            fits8(*found);
        }
        Reply::WrongSize { block, stated } => {
            fits64(*block);
            fits64(*stated);
        }
        Reply::Canary { kept, found } => {
            fits64(*kept);
            fits64(*found);
        }
        Reply::Usable(size) => fits64(*size),
        Reply::Bytes(runs) => runs_fit(runs.pairs()),
        Reply::Trap { addr } => fits64(*addr),
        Reply::Exhausted
        | Reply::NoSpace
        | Reply::PagesFailed
        | Reply::Freed
        | Reply::NoSlot
        | Reply::Unused
        | Reply::DoubleFree
        | Reply::Filled
        | Reply::NotLive => (),
    }
}

fn entry_fits(entry: &Entry)
    ensures { EntryFits entry.now }
{
    who_fits(&entry.who);
    call_fits(&entry.call);
    reply_fits(&entry.reply);
    choices_fit(&entry.choices);
    draws_fit(&entry.draws);
    fits64(entry.faults_before);
    fits64(entry.faults_after);
}

fn call_runs(call: &Call)
    ensures { CallRuns call.now }
{
    match call {
        Call::Fill { addr: _, runs } => runs.are_runs(),
        Call::Allot { .. } | Call::GiveBack { .. } | Call::Measure { .. } | Call::Fetch { .. } =>
            (),
    }
}

fn reply_runs(reply: &Reply)
    ensures { HasRuns reply.now }
{
    match reply {
        Reply::Bytes(runs) => runs.are_runs(),
        Reply::Given { .. }
        | Reply::Overwritten { .. }
        | Reply::Exhausted
        | Reply::NoSpace
        | Reply::PagesFailed
        | Reply::Freed
        | Reply::NoSlot
        | Reply::Unused
        | Reply::DoubleFree
        | Reply::WrongSize { .. }
        | Reply::Canary { .. }
        | Reply::Usable(_)
        | Reply::Filled
        | Reply::Trap { .. }
        | Reply::NotLive => (),
    }
}

fn entry_runs(entry: &Entry)
    ensures { EntryRuns entry.now }
{
    call_runs(&entry.call);
    reply_runs(&entry.reply);
}

impl Entry {
    /// What its types promise: its numbers are in their ranges, and its runs keep the rules of runs. It does nothing.
    pub fn typed(&self)
        ensures { IsTyped self.now }
    {
        entry_fits(self);
        entry_runs(self);
    }
}
