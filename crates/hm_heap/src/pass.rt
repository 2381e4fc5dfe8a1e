//! The right to make calls, on every region.
ghost use Rattle.std.specs.Prelude.{◌≡◌};

use hm_turn::Turn;
use std::marker::Model;

/// One turn for each region, in the hand of one caller.
#[derive(Drop)]
pub struct Pass {
    pub(crate) caller: u32,
    pub(crate) round: u32,
    pub(crate) thread: u32,
    /// How many passes were split off.
    pub(crate) splits: u32,
    /// How many of them are not joined.
    pub(crate) out: u64,
    pub(crate) turns: Vec<Turn>,
}

impl Model for Pass {
    ghost use Rattle.hm_heap.specs.Passes.{PassView, IsPass};

    ghost Value = { PassView };

    ghost view = { λ p. record {
      caller = p.caller;
      round = p.round;
      thread = p.thread;
      splits = p.splits;
      out = p.out;
      turns = p.turns.items;
    } };

    ghost invariant = { λ p. IsPass p.caller p.thread p.splits p.out p.turns.items };
}

impl Pass {
    /// 0 for the root, and a number of its own for each pass that was split off.
    pub fn caller(&self) -> u32
        ensures { result ≡ self.now.caller }
    {
        self.caller
    }

    /// The round in which its calls are made, 0 for the root.
    pub fn round(&self) -> u32
        ensures { result ≡ self.now.round }
    {
        self.round
    }

    /// The thread that makes its calls, from 1. It says in which arena small blocks are asked for.
    pub fn thread(&self) -> u32
        ensures { result ≡ self.now.thread }
    {
        self.thread
    }

    /// The number of splits that are not joined.
    pub fn out(&self) -> u64
        ensures { result ≡ self.now.out }
    {
        self.out
    }
}
