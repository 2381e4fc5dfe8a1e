//! One call of a region, under its turn.
ghost use Rattle.hm_heap.specs.Called.{MakesCall, MayMake, TriesCall};

use crate::region::Region;
use crate::request::RegionCall;
use core::mem::replace_with;
use hm_base::NoMemory;
use hm_model::Reply;
use hm_outside::{Gate, Pages};
use hm_turn::{Turn, TurnLock};
use std::sync::Wait;

/// Makes one call, once the turn is got.
fn enter<R: Wait, P: Pages, G: Gate>(
    rt: &R,
    lock: &TurnLock<Region<P>>,
    gate: &G,
    turn: Turn,
    call: RegionCall,
) -> (Turn, Result<Reply, NoMemory>)
    requires may { MayMake lock.now turn call }
    ensures made { MakesCall call.entry result.1 turn result.0 }
{
    let mut held = lock.take(rt, turn);
    gate.inside(call.region, call.who.caller);
    let reply = held.value().serve(call.who, call.request);
    (lock.give(held), reply)
}

/// Makes one call, if the turn is free.
fn try_enter<P: Pages, G: Gate>(
    lock: &TurnLock<Region<P>>,
    gate: &G,
    turn: Turn,
    call: RegionCall,
) -> (Turn, Option<Result<Reply, NoMemory>>)
    requires may { MayMake lock.now turn call }
    ensures tried { TriesCall call.entry result.1 turn result.0 }
{
    match lock.try_take(turn) {
        Ok(mut held) => {
            gate.inside(call.region, call.who.caller);
            let reply = held.value().serve(call.who, call.request);
            (lock.give(held), Some(reply))
        }
        Err(turn) => (turn, None),
    }
}

/// Makes one call, once the turn is got. The turn leaves its place for it and comes back there.
pub(crate) fn enter_at<R: Wait, P: Pages, G: Gate>(
    rt: &R,
    lock: &TurnLock<Region<P>>,
    gate: &G,
    turn: &mut Turn,
    call: RegionCall,
) -> Result<Reply, NoMemory>
    requires may { MayMake lock.now turn.old call }
    ensures made { MakesCall call.entry result turn.old turn.new }
{
    replace_with(
        turn,
        call,
        |turn, call|
            requires { MayMake lock.now turn call }
            ensures { MakesCall call.entry result.1 turn result.0 }
        { enter(rt, lock, gate, turn, call) },
    )
}

/// The same, if the turn is free.
pub(crate) fn try_enter_at<P: Pages, G: Gate>(
    lock: &TurnLock<Region<P>>,
    gate: &G,
    turn: &mut Turn,
    call: RegionCall,
) -> Option<Result<Reply, NoMemory>>
    requires may { MayMake lock.now turn.old call }
    ensures tried { TriesCall call.entry result turn.old turn.new }
{
    replace_with(
        turn,
        call,
        |turn, call|
            requires { MayMake lock.now turn call }
            ensures { TriesCall call.entry result.1 turn result.0 }
        { try_enter(lock, gate, turn, call) },
    )
}
