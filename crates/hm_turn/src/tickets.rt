//! The tickets of a lock: how a seat asks for the turn without waiting, draws a ticket, and waits for it.
ghost use Rattle.std.specs.Prelude.{◌≡◌, ◌<◌, ◌+◌, ◌^◌, ℕ, true, false, [], IfSome, IfNone};
ghost use Rattle.hm_turn.specs.Sound.{IsSeatOf, Becomes, IsIdle, MayAsk, IsWaiting, HasAsked};
ghost use Rattle.hm_turn.specs.Steps.{Wins, WinsLater};
ghost use Rattle.hm_turn.specs.Views.{drawing, noting, finding, outrun};

use crate::steps::{Ask, Await, Draw, Observe, SERVING, TICKET};
use crate::{Kept, TurnLock, View};
use atomic_table::Seat;
use std::sync::Wait;
use std::{hint, thread};

/// How often a waiting call looks again at once, before it yields its processor between two looks.
const SPINS: u32 = 100;

/// How often a call that may wait looks whether it can have the turn at once, before it draws a ticket. So many looks
/// mostly outlast the time that a holder is off its processor. Few tickets are drawn then, which serves all: a ticket
/// whose owner does not run holds everybody up.
const TRIES: u32 = 2_000;

/// Lets other threads go on between two looks. It says how many looks there were without a yield.
fn pause(looks: u32) -> u32 {
    if looks < SPINS {
        hint::spin_loop();
        looks + 1
    } else {
        thread::yield_now();
        looks
    }
}

impl<T: Kept> TurnLock<T> {
    /// Gets the turn: as soon as a look finds no ticket out, and after `TRIES` looks by a ticket that it waits for. It
    /// says by which number.
    pub(crate) fn get_turn<R: Wait>(&self, rt: &R, seat: &mut Seat<Option<T>, View>) -> u64
        requires idle { IsSeatOf self.now IsIdle seat.old }
        ensures wins { Becomes seat.old (WinsLater T.entries T.origin seat.old.me result) seat.new }
    {
        if let Some(number) = self.ask_often(seat) {
            return number;
        }
        let ticket = self.draw(rt, seat);
        self.wait_for(rt, seat, ticket);
        ticket
    }

    /// Looks `TRIES` times at most, and asks for the turn until it is got. It says by which number it was got.
    fn ask_often(&self, seat: &mut Seat<Option<T>, View>) -> Option<u64>
        requires idle { IsSeatOf self.now IsIdle seat.old }
        ensures wins { IfSome result (λ n. Becomes seat.old (WinsLater T.entries T.origin seat.old.me n) seat.new) }
        ensures asked { IfNone result (Becomes seat.old (HasAsked seat.old.me) seat.new) }
    {
        let mut looks = 0;
        for _ in 0..TRIES {
            if let Some(number) = self.ask_if_free(seat) {
                return Some(number);
            }
            looks = pause(looks);
        }
        None
    }

    /// Asks for the turn, if no ticket is out. It says by which number it was got.
    fn ask_if_free(&self, seat: &mut Seat<Option<T>, View>) -> Option<u64>
        requires idle { IsSeatOf self.now IsIdle seat.old }
        ensures wins { IfSome result (λ n. Becomes seat.old (WinsLater T.entries T.origin seat.old.me n) seat.new) }
        ensures asked { IfNone result (Becomes seat.old (HasAsked seat.old.me) seat.new) }
    {
        let serving = self.observe(seat);
        let next = self.table.shared.peek(TICKET);
        if serving < u64::MAX && next == serving && self.ask(seat, serving) {
            Some(serving)
        } else {
            None
        }
    }

    /// Draws the next ticket.
    pub(crate) fn draw<R: Wait>(&self, rt: &R, seat: &mut Seat<Option<T>, View>) -> u64
        requires idle { IsSeatOf self.now IsIdle seat.old }
        ensures drawn { Becomes seat.old (λ me. me ≡ (drawing seat.old.me.0 result, [])) seat.new }
        ensures next_fits { result + 1 < 2 ^ 64 }
    {
        let mut looks = 0;
        for _ in rt.forever() {
            let next = self.table.shared.peek(TICKET);
            if next < u64::MAX && self.draw_this(seat, next) {
                return next;
            }
            looks = pause(looks);
        }
        unreachable!()
    }

    /// Draws this ticket, if it is the next.
    fn draw_this(&self, seat: &mut Seat<Option<T>, View>, ticket: u64) -> bool
        requires idle { IsSeatOf self.now IsIdle seat.old }
        requires next_fits { ticket + 1 < 2 ^ 64 }
        ensures drawn { result ≡ true → Becomes seat.old (λ me. me ≡ (drawing seat.old.me.0 ticket, [])) seat.new }
        ensures same { result ≡ false → Becomes seat.old (λ me. me ≡ seat.old.me) seat.new }
    {
        let shared = &self.table.shared;
        shared.compare_exchange::<Draw<T>>(seat, TICKET, ticket, ticket + 1) == ticket
    }

    /// Waits until the seat's ticket is served.
    pub(crate) fn wait_for<R: Wait>(&self, rt: &R, seat: &mut Seat<Option<T>, View>, ticket: u64)
        requires waits { IsSeatOf self.now (λ me. IsWaiting me ticket) seat.old }
        ensures wins { Becomes seat.old (Wins T.entries T.origin seat.old.me.0) seat.new }
    {
        let mut looks = 0;
        for _ in rt.forever() {
            if self.is_served(seat, ticket) {
                return;
            }
            looks = pause(looks);
        }
        unreachable!()
    }

    /// Looks whether the seat's ticket is served.
    fn is_served(&self, seat: &mut Seat<Option<T>, View>, ticket: u64) -> bool
        requires waits { IsSeatOf self.now (λ me. IsWaiting me ticket) seat.old }
        ensures wins { result ≡ true → Becomes seat.old (Wins T.entries T.origin seat.old.me.0) seat.new }
        ensures waits { result ≡ false → (n : ℕ) × Becomes seat.old (λ me. me ≡ (noting seat.old.me.0 n, [])) seat.new }
    {
        self.table.shared.load::<Await<T>>(seat, SERVING) == ticket
    }

    /// The number served, which the seat notes if it can be drawn.
    pub(crate) fn observe(&self, seat: &mut Seat<Option<T>, View>) -> u64
        requires idle { IsSeatOf self.now IsIdle seat.old }
        ensures found { Becomes seat.old (λ me. me ≡ (finding seat.old.me.0 result, [])) seat.new }
    {
        self.table.shared.load::<Observe<T>>(seat, SERVING)
    }

    /// Draws the number noted, if it is the next: it is served then, and the turn is got at once.
    pub(crate) fn ask(&self, seat: &mut Seat<Option<T>, View>, number: u64) -> bool
        requires noted { IsSeatOf self.now (λ me. MayAsk me number) seat.old }
        requires next_fits { number + 1 < 2 ^ 64 }
        ensures wins { result ≡ true
            → Becomes seat.old (Wins T.entries T.origin (drawing seat.old.me.0 number)) seat.new }
        ensures outrun { result ≡ false → Becomes seat.old (λ me. me ≡ (outrun seat.old.me.0, [])) seat.new }
    {
        let shared = &self.table.shared;
        shared.compare_exchange::<Ask<T>>(seat, TICKET, number, number + 1) == number
    }
}
