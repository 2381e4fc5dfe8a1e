//! The callers of a lock: turns are split off for them and joined again, and at last the lock is closed.
ghost use Rattle.std.specs.Prelude.{◌≡◌, ◌<◌, false};
ghost use Rattle.hm_turn.specs.Callers.{is_among};
ghost use Rattle.hm_turn.specs.Knowledge.{with_split, newcomer, with_joined};
ghost use Rattle.hm_turn.specs.Known.{IsOf, IsWhole, KnowsCallers};

use crate::steps::{Cut, Ends, Learn, Naming, TICKET};
use crate::{Kept, Turn, TurnLock};
use atomic_table::Badge;
use std::marker::Brand;
use std::mem;

impl<T: Kept> TurnLock<T> {
    /// A turn for another caller, which has seen what the first has.
    pub fn split(&self, turn: &mut Turn, caller: u32) -> Turn
        requires lock { IsOf self.now turn.old }
        requires root { turn.old.knows.caller ≡ 0 }
        requires fresh { (0 < caller) × (is_among caller turn.old.knows.used ≡ false) }
        ensures left { turn.new ≡ record { lock = turn.old.lock; knows = with_split turn.old.knows caller } }
        ensures right { result ≡ record { lock = turn.old.lock; knows = newcomer turn.old.knows caller } }
        ensures callers { KnowsCallers turn.old.knows }
    {
        self.learn(turn);
        self.split_named::<Brand>(turn, caller)
    }

    /// Ends the other turn. The first has then seen what either had, and has the other's entries.
    pub fn join(&self, into: &mut Turn, other: Turn)
        requires lock { IsOf self.now into.old × IsOf self.now other }
        requires root { into.old.knows.caller ≡ 0 }
        ensures knows { into.new ≡ record { lock = into.old.lock; knows = with_joined into.old.knows other.knows } }
        ensures callers { KnowsCallers into.new.knows }
    {
        self.join_seats(into, other);
        self.learn(into);
    }

    /// Takes the value out, once each turn that was split off is joined.
    pub fn close(self, turn: Turn) -> T
        requires lock { IsOf self turn }
        requires root { turn.knows.caller ≡ 0 }
        requires joined { turn.knows.out ≡ 0 }
        ensures origin { T.origin result ≡ self.origin }
        ensures entries { IsWhole (T.entries result) turn.knows }
    {
        let TurnLock { table } = self;
        let Turn {
            badge,
            caller: _,
            out: _,
        } = turn;
        let mut closed = table.close_with(badge.into_seat());
        let value = closed.take(0);
        closed.free();
        value.unwrap()
    }

    /// Reads a word, by which the turn of caller 0 learns what it knows of the callers.
    pub fn learn(&self, turn: &mut Turn)
        requires lock { IsOf self.now turn.old }
        requires root { turn.old.knows.caller ≡ 0 }
        ensures same { turn.new ≡ turn.old }
        ensures callers { KnowsCallers turn.new.knows }
    {
        let mut seat = mem::replace(&mut turn.badge, Badge::blank()).into_seat::<Option<T>>();
        self.table.shared.load::<Learn<T>>(&mut seat, TICKET);
        turn.badge = seat.into_badge();
    }

    fn split_named<N: Naming>(&self, turn: &mut Turn, caller: u32) -> Turn
        requires named { caller ≡ N.caller }
        requires lock { IsOf self.now turn.old }
        requires root { turn.old.knows.caller ≡ 0 }
        requires fresh { (0 < caller) × (is_among caller turn.old.knows.used ≡ false) }
        ensures left { turn.new ≡ record { lock = turn.old.lock; knows = with_split turn.old.knows caller } }
        ensures right { result ≡ record { lock = turn.old.lock; knows = newcomer turn.old.knows caller } }
    {
        let mut seat = mem::replace(&mut turn.badge, Badge::blank()).into_seat::<Option<T>>();
        let other = self.table.shared.split_seat::<Cut<N>>(&mut seat);
        turn.badge = seat.into_badge();
        turn.out += 1;
        Turn {
            badge: other.into_badge(),
            caller,
            out: 0,
        }
    }

    fn join_seats(&self, into: &mut Turn, other: Turn)
        requires lock { IsOf self.now into.old × IsOf self.now other }
        requires root { into.old.knows.caller ≡ 0 }
        ensures { into.new ≡ record { lock = into.old.lock; knows = with_joined into.old.knows other.knows } }
    {
        let Turn {
            badge,
            caller: _,
            out: _,
        } = other;
        let mut seat = mem::replace(&mut into.badge, Badge::blank()).into_seat::<Option<T>>();
        self.table
            .shared
            .join_seat::<Ends>(&mut seat, badge.into_seat());
        into.badge = seat.into_badge();
        into.out = into.out.saturating_sub(1);
    }
}
