//! The rounds of a trace on a heap, which is built for them and closed after them.
ghost use Rattle.std.specs.Prelude.{◌≡◌, ◌≤◌, ◌<◌, ◌^◌, true, [], length, map, IfOk};
ghost use Rattle.std.specs.List.{list_all};
ghost use Rattle.hm_outside.specs.Makers.{Made};
ghost use Rattle.hm_sizes.specs.Configs.{IsValid};
ghost use Rattle.hm_stats.specs.Tables.{entry_count};
ghost use Rattle.hm_report.specs.Findings.{ascends};
ghost use Rattle.hm_trace.specs.Traces.{is_round};
ghost use Rattle.hm_trace.specs.Views.{scripts_of};
ghost use Rattle.hm_heap.specs.Calls.{large_index};
ghost use Rattle.hm_heap.specs.Founds.{Founds, all_regions};
ghost use Rattle.hm_heap.specs.Passes.{AreOf, first_pass};
ghost use Rattle.hm_replay.specs.Replays.{HasReplayed};
ghost use Rattle.hm_replay.specs.Watched.{IsWatched};
ghost use Rattle.hm_run.specs.LiveSums.{live_sums};
ghost use Rattle.hm_run.specs.Replayed.{IsReplayed};
ghost use Rattle.hm_run.specs.Watches.{large_seen, size_sum, is_on, totals_of, Tracks};
ghost use Rattle.hm_run.specs.Words.{config_of};

use crate::watching::Watcher;
use crate::words::Options;
use hm_base::NoMemory;
use hm_heap::{Closed, Heap, Pass};
use hm_large_rules::live_block_sizes;
use hm_outside::{Gate, PageMaker, Pages};
use hm_replay::{Env, Setting, replayed_rounds, run_round, small_rounds, watched_rounds};
use hm_report::Results;
use hm_trace::{Round, Trace};
use std::alloc::Global;
use std::sync::Wait;
use std::thread::Threads;

/// What a trace is run with, beside the maker of its pages.
#[derive(Drop)]
pub struct Machine<'a, R, G> {
    /// The runtime.
    pub rt: &'a R,
    /// Where memory is taken.
    pub alloc: Global,
    /// The gate that region calls pass.
    pub gate: &'a G,
}

/// What a trace that was run hands out, and its results.
#[derive(Drop)]
pub struct Ran<P> {
    /// The histories, and the pages of each region.
    pub closed: Closed<P>,
    /// The results of the trace's steps, in the order of a report.
    pub results: Vec<Results>,
    /// Where the rounds are watched, the sum of the sizes of live large blocks after each of them.
    pub totals: Vec<u128>,
}

// Runs the rounds in order, each with the names that the one before has left, and watches them. The laws are called
// for their contracts.
fn run_rounds<R: Threads + Wait + Sync, P: Pages, G: Gate>(
    setting: &Setting<'_, '_, R, P, G>,
    root: &mut Pass,
    rounds: &[Round],
    watcher: &mut Watcher,
) -> Result<Vec<Results>, NoMemory>
    requires of { AreOf setting.now.heap.now.locks root.old.turns }
    requires index { large_index setting.now.heap.now.config < length setting.now.heap.now.locks }
    requires first { root.old ≡ first_pass root.old.turns }
    requires founds { Founds setting.now.heap.now.locks root.old.turns }
    requires valid { list_all (λ r. is_round r.scripts) rounds.now ≡ true }
    requires few { length rounds.now ≤ 1024 }
    requires fresh { Tracks watcher.old [] × (totals_of watcher.old ≡ []) }
    ensures of { AreOf setting.now.heap.now.locks root.new.turns }
    ensures root { (root.new.caller ≡ 0) × (root.new.out ≡ 0) }
    ensures ran { IfOk result (λ results. (last : _)
        × HasReplayed setting.now.heap.now.config root.new (map (λ r. r.scripts) rounds.now) results.items last) }
    ensures watched { IfOk result (λ _. is_on watcher.old ≡ true
        → IsWatched size_sum 1 (map (λ r. r.scripts) rounds.now) []
        (large_seen setting.now.heap.now.config root.new) (totals_of watcher.new)) }
{
    replayed_rounds();
    watched_rounds();
    small_rounds();
    let mut env = Env::build(setting.alloc);
    let mut all = Vec::new(setting.alloc);
    for (index, round) in rounds.iter().enumerate() {
        let mut results = run_round(setting, root, index as u32 + 1, round, &mut env)?;
        all.append(&mut results)?;
        watcher.after_round(setting.rt, setting.alloc, setting.heap, root)?;
    }
    Ok(all)
}

// Runs the rounds, watched or not. What watches them is ended, whether memory is found or not.
fn watch_rounds<R: Threads + Wait + Sync, P: Pages, G: Gate>(
    setting: &Setting<'_, '_, R, P, G>,
    root: &mut Pass,
    rounds: &[Round],
    watched: bool,
) -> Result<(Vec<Results>, Vec<u128>), NoMemory>
    requires of { AreOf setting.now.heap.now.locks root.old.turns }
    requires index { large_index setting.now.heap.now.config < length setting.now.heap.now.locks }
    requires first { root.old ≡ first_pass root.old.turns }
    requires founds { Founds setting.now.heap.now.locks root.old.turns }
    requires valid { list_all (λ r. is_round r.scripts) rounds.now ≡ true }
    requires few { length rounds.now ≤ 1024 }
    ensures of { AreOf setting.now.heap.now.locks root.new.turns }
    ensures root { (root.new.caller ≡ 0) × (root.new.out ≡ 0) }
    ensures ran { IfOk result (λ r. (last : _)
        × HasReplayed setting.now.heap.now.config root.new (map (λ r. r.scripts) rounds.now) r.0.items last) }
    ensures watched { IfOk result (λ r. watched ≡ true
        → IsWatched size_sum 1 (map (λ r. r.scripts) rounds.now) []
        (large_seen setting.now.heap.now.config root.new) r.1.items) }
{
    let mut watcher = Watcher::build(setting.alloc, watched)?;
    let results = run_rounds(setting, root, rounds, &mut watcher);
    let totals = watcher.end(setting.rt, setting.alloc);
    Ok((results?, totals))
}

/// Runs a trace on a new heap, of new pages, and watches its rounds where that is asked for.
pub fn run_trace<R: Threads + Wait + Sync, M: PageMaker, G: Gate>(
    machine: Machine<'_, R, G>,
    maker: &mut M,
    options: &Options,
    watched: bool,
    trace: &Trace,
) -> Result<Ran<M::P>, NoMemory>
    requires valid { IsValid (config_of options.now) }
    ensures replayed { IfOk result (λ ran. IsReplayed M.P.Pages options.now ran.closed trace.now ran.results.items) }
    ensures order { IfOk result (λ ran. ascends ran.results.items ≡ true) }
    ensures few { IfOk result (λ ran. entry_count ran.closed.histories < 2 ^ 63) }
    ensures totals { IfOk result (λ ran. watched ≡ true
        → ran.totals.items ≡ live_sums (config_of options.now) (scripts_of trace.now) ran.closed.histories) }
    ensures made { IfOk result (λ _.
        Made (M.made maker.old) (M.made maker.new) (all_regions (config_of options.now))) }
{
    replayed_rounds();
    watched_rounds();
    live_block_sizes();
    let Machine { rt, alloc, gate } = machine;
    let (heap, mut root) = Heap::build(alloc, options.config(), options.seed, maker, gate)?;
    let setting = Setting {
        rt,
        alloc,
        heap: &heap,
    };
    let (results, totals) = watch_rounds(&setting, &mut root, trace.rounds(), watched)?;
    let closed = heap.close(alloc, root)?;
    Ok(Ran {
        closed,
        results,
        totals,
    })
}
