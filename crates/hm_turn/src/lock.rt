//! The lock: how it is built, and how its value is taken and given back.
ghost use Rattle.std.specs.Prelude.{◌≡◌, [], length, IfOk, MatchResult};
ghost use Rattle.hm_turn.specs.Knowledge.{Knowledge, founding, with_seen, with_given, with_lost};
ghost use Rattle.hm_turn.specs.Known.{IsOf, IsTaken, MayGive, Gains, HasLost};
ghost use Rattle.hm_turn.specs.Sound.{IsSeatOf, Becomes};
ghost use Rattle.hm_turn.specs.Views.{knowing};
ghost use Rattle.hm_turn.specs.Steps.{IsGrown};

use crate::steps::{Add, COUNT, Count, Free, Order, SERVING, Written};
use crate::{Held, Kept, Turn, View};
use atomic_table::{Refused, Seat, Table};
use hm_base::NoMemory;
use std::alloc::Global;
use std::marker::{Brand, Model};
use std::snapshot::Snapshot;
use std::sync::Wait;

/// A value that is lent to one holder at a time.
#[derive(Drop)]
pub struct TurnLock<T: Kept> {
    pub(crate) table: Table<Option<T>, View, Snapshot<T>, Order<T>, Global>,
}

impl<T: Kept> Model for TurnLock<T> {
    ghost use Rattle.std.specs.Prelude.{◌≡◌};
    ghost use Rattle.hm_turn.specs.Known.{Lock};

    ghost Value = { Lock };

    ghost view = { λ l. record { id = l.table.shared.table_id; origin = T.origin l.table.shared.key.value } };

    ghost invariant = { λ l. (l.table.shared.table_id.words ≡ 3) × (l.table.shared.table_id.slots ≡ 1) };
}

impl<T: Kept> TurnLock<T> {
    /// A lock over the value, and its first turn, whose caller is 0.
    pub fn build(alloc: Global, value: T) -> Result<(TurnLock<T>, Turn), NoMemory>
        requires empty { T.entries value ≡ [] }
        ensures lock { IfOk result (λ r. r.0.origin ≡ T.origin value) }
        ensures turn { IfOk result (λ r. (r.1.lock ≡ r.0.id) × (r.1.knows ≡ founding (T.origin value))) }
    {
        let key = Snapshot::of(&value);
        let mut slots = Vec::with_capacity(alloc, 1)?;
        slots.push_reserved(Some(value));
        match Table::new(alloc, &[0, 0, 0], slots, &key) {
            Ok((table, seat)) => Ok((
                TurnLock { table },
                Turn {
                    badge: seat.into_badge(),
                    caller: 0,
                    out: 0,
                },
            )),
            Err(Refused { slots: _ }) => Err(NoMemory),
        }
    }

    /// The value, if the turn is free. At `Err` this call's one deciding step found a ticket drawn by another that
    /// was not served when this call loaded `serving`, or found 2^64 - 1 tickets drawn.
    pub fn try_take(&self, turn: Turn) -> Result<Held<T>, Turn>
        requires lock { IsOf self.now turn }
        ensures { MatchResult result
            (λ held. IsTaken T.entries T.origin self.now turn held
            × (held.knows ≡ with_seen turn.knows (T.entries held.value)))
            (λ back. (back.lock ≡ turn.lock) × (back.knows ≡ with_lost turn.knows)) }
    {
        let Turn { badge, caller, out } = turn;
        let mut seat = badge.into_seat::<Option<T>>();
        let serving = self.observe(&mut seat);
        if serving < u64::MAX && self.ask(&mut seat, serving) {
            let value = self.table.shared.exchange(&mut seat, 0, None).unwrap();
            Ok(Held {
                seat,
                value,
                ticket: serving,
                caller,
                out,
            })
        } else {
            Err(Turn {
                badge: seat.into_badge(),
                caller,
                out,
            })
        }
    }

    /// The value. It looks a bounded number of times whether it can have the turn at once. If it cannot, it draws a
    /// ticket, and waits until all who drew one before it have given the value back. Once 2^64 - 1 tickets are drawn
    /// it waits for ever.
    pub fn take<R: Wait>(&self, rt: &R, turn: Turn) -> Held<T>
        requires lock { IsOf self.now turn }
        ensures taken { IsTaken T.entries T.origin self.now turn result }
        ensures knows { (k : Knowledge) × HasLost turn.knows k × (result.knows ≡ with_seen k (T.entries result.value)) }
    {
        let Turn { badge, caller, out } = turn;
        let mut seat = badge.into_seat::<Option<T>>();
        let ticket = self.get_turn(rt, &mut seat);
        let value = self.table.shared.exchange(&mut seat, 0, None).unwrap();
        Held {
            seat,
            value,
            ticket,
            caller,
            out,
        }
    }

    /// Puts the value back, and serves the next ticket. The turn has then seen all entries of the value.
    pub fn give(&self, held: Held<T>) -> Turn
        requires value { MayGive T.entries T.origin self.now held }
        ensures lock { result.lock ≡ held.lock }
        ensures knows { result.knows ≡ with_given held.knows (T.entries held.value) }
        ensures gains { Gains held.knows result.knows }
    {
        let Held {
            mut seat,
            value,
            ticket,
            caller,
            out,
        } = held;
        let shared = &self.table.shared;
        self.count_last::<Brand>(&mut seat, &value);
        drop(shared.exchange(&mut seat, 0, Some(value)));
        shared.store::<Free<T>>(&mut seat, SERVING, ticket + 1);
        Turn {
            badge: seat.into_badge(),
            caller,
            out,
        }
    }

    /// Counts the value's last entry, if it is a new one.
    fn count_last<N: Written>(&self, seat: &mut Seat<Option<T>, View>, value: &T)
        requires named { T.entries value.now ≡ N.entries }
        requires grown { IsSeatOf self.now (λ me. IsGrown me.0 N.entries (length N.entries)) seat.old }
        ensures knows { Becomes seat.old (λ me. me ≡ (knowing seat.old.me.0 N.entries, seat.old.me.1)) seat.new }
    {
        self.count::<N>(seat, value.len());
    }

    /// Counts an entry, if fewer than `len` are counted.
    fn count<N: Written>(&self, seat: &mut Seat<Option<T>, View>, len: u64)
        requires grown { IsSeatOf self.now (λ me. IsGrown me.0 N.entries len) seat.old }
        ensures knows { Becomes seat.old (λ me. me ≡ (knowing seat.old.me.0 N.entries, seat.old.me.1)) seat.new }
    {
        let shared = &self.table.shared;
        if shared.load::<Count<T>>(seat, COUNT) < len {
            shared.fetch_add::<Add<N>>(seat, COUNT, 1);
        }
    }
}
