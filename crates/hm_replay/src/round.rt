//! A round: one pass for each script, each run in a thread of its own.
ghost use Rattle.std.specs.Prelude.{◌≡◌, ℕ, ◌+◌, ◌<◌, ◌≤◌, ◌^◌, [], length, map, slice_index_or, vec_len, vec_capacity, Some, IfOk, OnOk, OnErr};
ghost use Rattle.hm_heap.specs.Passes.{AreOf};
ghost use Rattle.hm_replay.specs.Names.{held};
ghost use Rattle.hm_replay.specs.RoundOf.{BeginsRound, LeavesRoot, ended_in};
ghost use Rattle.hm_replay.specs.Rounds.{RunsRound};
ghost use Rattle.hm_replay.specs.Workers.{IsToRun, WasRun, HasParted, IsBegun, FinishedTo};

use crate::env::Env;
use crate::left::NameLeft;
use crate::scope::Scope;
use crate::script::run_with;
use crate::setting::Setting;
use hm_base::NoMemory;
use hm_heap::{Heap, Pass};
use hm_outside::{Gate, Pages};
use hm_report::Results;
use hm_trace::{Round, Script};
use std::alloc::Global;
use std::sync::Wait;
use std::thread::{Threads, for_each_mut};

/// A script with its pass, the names as it sees them, its results and what it leaves of its names.
#[derive(Drop)]
struct Worker<'s, 'e> {
    script: &'s Script,
    pass: Pass,
    scope: Scope<'e>,
    results: Option<Results>,
    left: Option<Vec<NameLeft>>,
}

impl<'s, 'e> Worker<'s, 'e> {
    fn run<R: Wait, P: Pages, G: Gate>(&mut self, rt: &R, alloc: Global, heap: &Heap<'_, P, G>)
        requires { IsToRun heap.now.locks self.old }
        ensures run { WasRun heap.now self.old self.new }
    {
        let setting = Setting { rt, alloc, heap };
        let results = run_with(&setting, &mut self.pass, self.script, &mut self.scope).ok();
        self.left = match &results {
            Some(_) => self.scope.left(alloc).ok(),
            None => None,
        };
        self.results = results;
    }
}

// Runs each worker in a thread of its own.
fn work<R: Threads + Wait + Sync, P: Pages, G: Gate>(
    rt: &R,
    alloc: Global,
    heap: &Heap<'_, P, G>,
    workers: &mut Vec<Worker<'_, '_>>,
    threads: usize,
)
    requires threads { 0 < threads }
    requires ready { (i : ℕ) (w : _) → i < length workers.old.items
        → IsToRun heap.now.locks (slice_index_or workers.old.items i w) }
    ensures len { vec_len workers.new ≡ vec_len workers.old }
    ensures each { (i : ℕ) (w : _) → i < length workers.old.items
        → WasRun heap.now (slice_index_or workers.old.items i w) (slice_index_or workers.new.items i w) }
{
    for_each_mut(
        rt,
        workers,
        threads,
        &|_, w: &mut Worker<'_, '_>|
            requires { IsToRun heap.now.locks w.old }
        { w.run(rt, alloc, heap) },
    );
}

// Splits a pass off for each script, until memory runs out.
fn start<'s, 'e, R, P: Pages, G: Gate>(
    setting: &Setting<'_, '_, R, P, G>,
    root: &mut Pass,
    round_number: u32,
    scripts: &'s [Script],
    env: &'e Env,
    workers: &mut Vec<Worker<'s, 'e>>,
) -> Result<(), NoMemory>
    requires of { AreOf setting.now.heap.now.locks root.old.turns }
    requires root { root.old.caller ≡ 0 }
    requires few { root.old.splits + length scripts.now < 2 ^ 32 }
    requires room { (workers.old.items ≡ []) × (length scripts.now ≤ vec_capacity workers.old) }
    ensures root { HasParted setting.now.heap.now.locks (vec_len workers.new) root.old root.new }
    ensures workers { (i : ℕ) (w : _) → i < vec_len workers.new
        → IsBegun setting.now.heap.now.locks (root.old.splits + 1 + i) round_number root.old (held env.now)
        (slice_index_or workers.new.items i w) }
    ensures scripts { (i : ℕ) (w : _) (s : _) → i < vec_len workers.new
        → (slice_index_or workers.new.items i w).script.now ≡ slice_index_or scripts.now i s }
    ensures all { OnOk result (vec_len workers.new ≡ length scripts.now) }
    ensures some { vec_len workers.new ≤ length scripts.now }
{
    for script in scripts {
        let pass = setting
            .heap
            .split(setting.alloc, root, round_number, script.thread())?;
        workers.push_reserved(Worker {
            script,
            pass,
            scope: Scope::build(setting.alloc, env),
            results: None,
            left: None,
        });
    }
    Ok(())
}

// Joins each pass, and gives in order the results and what is left of the names.
fn finish<P: Pages, G: Gate>(
    heap: &Heap<'_, P, G>,
    root: &mut Pass,
    workers: Vec<Worker<'_, '_>>,
    found: &mut Vec<Option<Results>>,
    lists: &mut Vec<Option<Vec<NameLeft>>>,
)
    requires of { AreOf heap.now.locks root.old.turns }
    requires root { root.old.caller ≡ 0 }
    requires passes { (i : ℕ) (w : _) → i < vec_len workers
        → AreOf heap.now.locks (slice_index_or workers.items i w).pass.turns }
    requires room { (found.old.items ≡ []) × (vec_len workers ≤ vec_capacity found.old) }
    requires space { (lists.old.items ≡ []) × (vec_len workers ≤ vec_capacity lists.old) }
    ensures passes { FinishedTo heap.now.locks root.old root.new workers.entry.items found.new.items }
    ensures lists { lists.new.items ≡ map (λ w. w.left) workers.entry.items }
{
    for worker in workers {
        let Worker {
            pass,
            results,
            left,
            ..
        } = worker;
        heap.join(root, pass);
        found.push_reserved(results);
        lists.push_reserved(left);
    }
}

// What all scripts gave, unless one found no memory.
fn all_found<T: Drop>(alloc: Global, found: Vec<Option<T>>) -> Result<Vec<T>, NoMemory>
    ensures { IfOk result (λ all. map Some all.items ≡ found.items) }
{
    let mut all = Vec::with_capacity(alloc, found.len())?;
    for one in found {
        all.push_reserved(one.ok_or(NoMemory)?);
    }
    Ok(all)
}

/// Runs each script of a round under a pass of its own, each in a thread of its own. All passes are joined, also where
/// there is no memory: then each script may have run up to any step, or not at all, and no name is set. Else the names
/// that the scripts set are seen from then on.
pub fn run_round<R: Threads + Wait + Sync, P: Pages, G: Gate>(
    setting: &Setting<'_, '_, R, P, G>,
    root: &mut Pass,
    number: u32,
    round: &Round,
    env: &mut Env,
) -> Result<Vec<Results>, NoMemory>
    requires of { AreOf setting.now.heap.now.locks root.old.turns }
    requires root { root.old.caller ≡ 0 }
    requires few { root.old.splits + length round.now.scripts < 2 ^ 32 }
    ensures of { AreOf setting.now.heap.now.locks root.new.turns }
    ensures root { LeavesRoot (length round.now.scripts) root.old root.new }
    ensures splits { IfOk result (λ _. root.new.splits ≡ root.old.splits + length round.now.scripts) }
    ensures at_most { (root.old.splits ≤ root.new.splits)
        × (root.new.splits ≤ root.old.splits + length round.now.scripts) }
    ensures ran { IfOk result (λ results. RunsRound setting.now.heap.now.config (ended_in root.new.turns)
        (root.old.splits + 1) number (held env.old) (held env.old) round.now.scripts results.items (held env.new)) }
    ensures begun { BeginsRound setting.now.heap.now.config number (held env.old) round.now.scripts root.old root.new }
    ensures memory { OnErr result (env.new ≡ env.old) }
{
    let alloc = setting.alloc;
    let scripts = round.scripts();
    let mut workers = Vec::with_capacity(alloc, scripts.len())?;
    let mut found = Vec::with_capacity(alloc, scripts.len())?;
    let mut lists = Vec::with_capacity(alloc, scripts.len())?;
    if start(setting, root, number, scripts, env, &mut workers).is_err() {
        finish(setting.heap, root, workers, &mut found, &mut lists);
        return Err(NoMemory);
    }
    let threads = workers.len().max(1);
    work(setting.rt, alloc, setting.heap, &mut workers, threads);
    finish(setting.heap, root, workers, &mut found, &mut lists);
    let results = all_found(alloc, found)?;
    let left = all_found(alloc, lists)?;
    env.set_all(&left)?;
    Ok(results)
}
