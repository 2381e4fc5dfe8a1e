//! Turns, and the value in the hand of one of them.
ghost use Rattle.std.specs.Prelude.{◌≡◌};

use crate::{Kept, View};
use atomic_table::{Badge, Seat};
use std::marker::Model;

/// The right to ask for the value, for one caller. It knows a beginning of the history.
#[derive(Drop)]
pub struct Turn {
    pub(crate) badge: Badge<View>,
    pub(crate) caller: u32,
    pub(crate) out: u64,
}

impl Model for Turn {
    ghost use Rattle.hm_turn.specs.Known.{Known};
    ghost use Rattle.hm_turn.specs.Views.{knowledge, view_in};
    ghost use Rattle.hm_turn.specs.Sound.{IsSound};

    ghost Value = { Known };

    ghost view = { λ t. record { lock = t.badge.table_id; knows = knowledge (view_in t.badge.views) } };

    ghost invariant = { λ t. IsSound t.badge.views t.caller t.out };
}

impl Turn {
    /// The caller's number.
    pub fn caller(&self) -> u32
        ensures { result ≡ self.now.knows.caller }
    {
        self.caller
    }

    /// The number of splits that are not joined.
    pub fn out(&self) -> u64
        ensures { result ≡ self.now.knows.out }
    {
        self.out
    }
}

/// The value, in the hand of one caller, until it is given back.
pub struct Held<T: Kept> {
    pub(crate) seat: Seat<Option<T>, View>,
    pub(crate) value: T,
    pub(crate) ticket: u64,
    pub(crate) caller: u32,
    pub(crate) out: u64,
}

impl<T: Kept> Model for Held<T> {
    ghost use Rattle.hm_turn.specs.Known.{InHand};
    ghost use Rattle.hm_turn.specs.Views.{knowledge};
    ghost use Rattle.hm_turn.specs.Sound.{IsFirm};

    ghost Value = { InHand T };

    ghost view = { λ h. record { lock = h.seat.table_id; knows = knowledge h.seat.me.0; value = h.value } };

    ghost invariant = { λ h. IsFirm h.seat.me h.ticket h.caller h.out };
}

impl<T: Kept> Held<T> {
    /// The caller's number.
    pub fn caller(&self) -> u32
        ensures { result ≡ self.now.knows.caller }
    {
        self.caller
    }
}
