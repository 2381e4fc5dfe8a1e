//! A pass is split off another, and joined to it again.
ghost use Rattle.std.specs.Prelude.{◌≡◌, ℕ, false, ◌+◌, ◌-◌, ◌<◌, ◌^◌, ◌≤◌, slice_index_or, vec_len, vec_capacity, [], IfOk, OnErr, map};
ghost use Rattle.hm_turn.specs.Callers.{is_among};
ghost use Rattle.hm_turn.specs.Known.{Known};
ghost use Rattle.hm_heap.specs.Passes.{AreOf, AllKnow, cut, born, all_met, with_split_off, split_off, with_pass_joined};

use crate::heap::Heap;
use crate::pass::Pass;
use crate::region::Region;
use hm_base::NoMemory;
use hm_outside::{Gate, Pages};
use hm_turn::{Turn, TurnLock};
use std::alloc::Global;

// Splits each turn.
fn split_all<P: Pages>(
    locks: &[TurnLock<Region<P>>],
    roots: &mut Vec<Turn>,
    turns: &mut Vec<Turn>,
    caller: u32,
)
    requires of { AreOf locks.now roots.old.items }
    requires root { (r : ℕ) (t : Known) → r < vec_len roots.old
        → ((slice_index_or roots.old.items r t).knows.caller ≡ 0)
        × (is_among caller (slice_index_or roots.old.items r t).knows.used ≡ false) }
    requires caller { 0 < caller }
    requires empty { turns.old.items ≡ [] }
    requires room { vec_len roots.old ≤ vec_capacity turns.old }
    ensures root { roots.new.items ≡ map (cut caller) roots.old.items }
    ensures born { turns.new.items ≡ map (born caller) roots.old.items }
    ensures callers { AllKnow roots.old.items }
{
    for r in 0..roots.len() {
        turns.push_reserved(locks[r].split(&mut roots[r], caller));
    }
}

// Joins each turn, from the last on.
fn join_all<P: Pages>(locks: &[TurnLock<Region<P>>], roots: &mut Vec<Turn>, mut others: Vec<Turn>)
    requires of { AreOf locks.now roots.old.items × AreOf locks.now others.items }
    requires root { (r : ℕ) (t : Known) → r < vec_len roots.old
        → (slice_index_or roots.old.items r t).knows.caller ≡ 0 }
    ensures all { roots.new.items ≡ all_met roots.old.items others.items }
    ensures callers { AllKnow roots.new.items }
{
    while let Some(other) = others.pop() {
        let r = others.len();
        locks[r].join(&mut roots[r], other);
    }
}

impl<'g, P: Pages, G: Gate> Heap<'g, P, G> {
    /// A pass for another caller, which has seen as much. The root is as before where there is no memory.
    #[tactic(auto, using(crate::proofs::Splitting::of_cut, crate::proofs::Splitting::of_born))]
    pub fn split(
        &self,
        alloc: Global,
        root: &mut Pass,
        round: u32,
        thread: u32,
    ) -> Result<Pass, NoMemory>
        requires of { AreOf self.now.locks root.old.turns }
        requires root { root.old.caller ≡ 0 }
        requires thread { 1 ≤ thread }
        requires few { root.old.splits < 2 ^ 32 - 1 }
        ensures root { IfOk result (λ p. root.new ≡ with_split_off root.old) }
        ensures pass { IfOk result (λ p. p ≡ split_off root.old round thread) }
        ensures of { IfOk result (λ p. AreOf self.now.locks root.new.turns × AreOf self.now.locks p.turns) }
        ensures callers { IfOk result (λ p. AllKnow root.old.turns) }
        ensures memory { OnErr result (root.new ≡ root.old) }
    {
        let mut turns = Vec::with_capacity(alloc, root.turns.len())?;
        let caller = root.splits + 1;
        split_all(self.locks.as_slice(), &mut root.turns, &mut turns, caller);
        root.splits = caller;
        root.out += 1;
        Ok(Pass {
            caller,
            round,
            thread,
            splits: 0,
            out: 0,
            turns,
        })
    }

    /// Ends the other pass. Its caller's entries are known from then on.
    #[tactic(auto, using(crate::proofs::Splitting::of_met))]
    pub fn join(&self, root: &mut Pass, pass: Pass)
        requires of { AreOf self.now.locks root.old.turns × AreOf self.now.locks pass.turns }
        requires root { root.old.caller ≡ 0 }
        ensures root { root.new ≡ with_pass_joined root.old pass }
        ensures of { AreOf self.now.locks root.new.turns }
        ensures callers { AllKnow root.new.turns }
    {
        let Pass { turns, .. } = pass;
        join_all(self.locks.as_slice(), &mut root.turns, turns);
        root.out = root.out.saturating_sub(1);
    }
}
