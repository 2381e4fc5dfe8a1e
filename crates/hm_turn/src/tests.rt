//! Turns at a lock over a shelf, in one thread and in two.
ghost use Rattle.std.specs.Prelude.{◌≡◌, ◌+◌, true};
ghost use Rattle.hm_turn.specs.Known.{IsOf};

use crate::steps::TICKET;
use crate::{Shelf, Turn, TurnLock};
use hm_model::{Call, Entry, Reply, Who};
use std::sync::Wait;
use std::test::Fail;
use std::thread;
use std::thread::{Threads, join};

/// An entry of this caller.
fn entry(caller: u32, step: u32) -> Entry
    ensures { result.who.caller ≡ caller }
{
    let who = Who {
        caller,
        round: 1,
        thread: caller,
        step,
        part: 1,
    };
    Entry::plain(who, Call::Measure { addr: 0 }, Reply::NotLive, 0, 0)
}

/// The first turn takes the value and the second finds it held; once the first has given it back, the
/// second takes it. Says whether it was so, and hands the turns back.
fn held_then_free(lock: &TurnLock<Shelf>, first: Turn, second: Turn) -> (bool, Turn, Turn)
    requires { IsOf lock.now first × IsOf lock.now second }
    ensures of { IsOf lock.entry.now result.1 × IsOf lock.entry.now result.2 }
    ensures lost { result.0 ≡ true → result.2.knows.lost ≡ second.knows.lost + 1 }
{
    let held = match lock.try_take(first) {
        Ok(held) => held,
        Err(first) => return (false, first, second),
    };
    let second = match lock.try_take(second) {
        Ok(other) => return (false, lock.give(held), lock.give(other)),
        Err(second) => second,
    };
    let first = lock.give(held);
    match lock.try_take(second) {
        Ok(held) => (true, first, lock.give(held)),
        Err(second) => (false, first, second),
    }
}

#[test]
fn a_turn_is_held_by_one(rt: HostRuntime) -> Result<(), Fail> {
    let shelf = Shelf::build(rt.alloc(), 7);
    let (lock, mut root) = TurnLock::build(rt.alloc(), shelf)?;
    let second = lock.split(&mut root, 1);
    let (as_said, root, second) = held_then_free(&lock, root, second);
    assert!(rt; as_said && root.caller() == 0 && root.out() == 1 && second.caller() == 1);
    Ok(())
}

#[test]
fn an_unchanged_shelf_comes_back(rt: HostRuntime) -> Result<(), Fail> {
    let shelf = Shelf::build(rt.alloc(), 7);
    let (lock, mut root) = TurnLock::build(rt.alloc(), shelf)?;
    let turn = lock.split(&mut root, 1);
    let (taken, turn) = match lock.try_take(turn) {
        Ok(held) => (true, lock.give(held)),
        Err(turn) => (false, turn),
    };
    lock.join(&mut root, turn);
    assert!(rt; taken && root.out() == 0);
    assert!(rt; lock.close(root).entries().is_empty());
    Ok(())
}

/// Adds this many entries of the turn's caller, one at each taking, and says how many found memory.
fn add_many<R: Wait>(rt: &R, lock: &TurnLock<Shelf>, turn: Turn, count: u32) -> (Turn, u32)
    requires { IsOf lock.now turn }
    ensures of { IsOf lock.entry.now result.0 }
    ensures caller { result.0.knows.caller ≡ turn.knows.caller }
{
    let mut turn = turn;
    let mut done = 0;
    for step in 0..count {
        let mut held = lock.take(rt, turn);
        let caller = held.caller();
        if held.value().add(entry(caller, step)).is_ok() {
            done += 1;
        }
        turn = lock.give(held);
    }
    (turn, done)
}

/// Two threads that add this many entries each.
fn add_by_two<R: Threads + Wait + Sync>(
    rt: &R,
    lock: &TurnLock<Shelf>,
    first: Turn,
    second: Turn,
    count: u32,
) -> ((Turn, u32), (Turn, u32))
    requires { IsOf lock.now first × IsOf lock.now second }
    ensures of { IsOf lock.entry.now result.0.0 × IsOf lock.entry.now result.1.0 }
{
    join(
        rt,
        || add_many(rt, lock, first, count),
        || add_many(rt, lock, second, count),
    )
}

/// How many entries each of the callers 1 to 4 has, if there are no others and each caller's are in order.
fn tally(shelf: &Shelf) -> Option<[u32; 5]> {
    let mut next = [0u32; 5];
    for e in shelf.entries() {
        let caller = e.who.caller;
        if caller == 0 || caller > 4 || e.who.step != next[caller as usize] {
            return None;
        }
        next[caller as usize] = e.who.step.saturating_add(1);
    }
    Some(next)
}

#[test]
fn two_threads_take_turns(rt: HostRuntime) -> Result<(), Fail> {
    let shelf = Shelf::build(rt.alloc(), 7);
    let (lock, mut root) = TurnLock::build(rt.alloc(), shelf)?;
    let first = lock.split(&mut root, 1);
    let second = lock.split(&mut root, 2);
    assert!(rt; root.out() == 2 && second.caller() == 2);
    let ((first, by_first), (second, by_second)) = add_by_two(&rt, &lock, first, second, 1000);
    assert!(rt; by_first == 1000 && by_second == 1000);
    lock.join(&mut root, second);
    lock.join(&mut root, first);
    assert!(rt; root.out() == 0);
    assert!(rt; tally(&lock.close(root)) == Some([0, 1000, 1000, 0, 0]));
    Ok(())
}

#[test]
fn four_threads_take_turns(rt: HostRuntime) -> Result<(), Fail> {
    let shelf = Shelf::build(rt.alloc(), 7);
    let (lock, mut root) = TurnLock::build(rt.alloc(), shelf)?;
    let first = lock.split(&mut root, 1);
    let second = lock.split(&mut root, 2);
    let third = lock.split(&mut root, 3);
    let fourth = lock.split(&mut root, 4);
    let (((first, a), (second, b)), ((third, c), (fourth, d))) = join(
        &rt,
        || add_by_two(&rt, &lock, first, second, 10_000),
        || add_by_two(&rt, &lock, third, fourth, 10_000),
    );
    assert!(rt; [a, b, c, d] == [10_000; 4]);
    lock.join(&mut root, first);
    lock.join(&mut root, second);
    lock.join(&mut root, third);
    lock.join(&mut root, fourth);
    assert!(rt; tally(&lock.close(root)) == Some([0, 10_000, 10_000, 10_000, 10_000]));
    Ok(())
}

/// How often `until_drawn` looks before it gives up.
const LOOKS: u32 = 50_000_000;

/// Waits until this many tickets are drawn. It says whether it saw so.
fn until_drawn(lock: &TurnLock<Shelf>, count: u64) -> bool {
    for _ in 0..LOOKS {
        if lock.table.shared.peek(TICKET) >= count {
            return true;
        }
        thread::yield_now();
    }
    false
}

/// Takes the turn for one entry, once this many tickets are drawn.
fn add_behind<R: Wait>(rt: &R, lock: &TurnLock<Shelf>, turn: Turn, drawn: u64) -> (Turn, bool)
    requires { IsOf lock.now turn }
    ensures of { IsOf lock.entry.now result.0 }
{
    let seen = until_drawn(lock, drawn);
    let (turn, done) = add_many(rt, lock, turn, 1);
    (turn, seen && done == 1)
}

/// Both do so, the second behind the first.
fn add_behind_each<R: Threads + Wait + Sync>(
    rt: &R,
    lock: &TurnLock<Shelf>,
    first: Turn,
    second: Turn,
) -> ((Turn, bool), (Turn, bool))
    requires { IsOf lock.now first × IsOf lock.now second }
    ensures of { IsOf lock.entry.now result.0.0 × IsOf lock.entry.now result.1.0 }
{
    join(
        rt,
        || add_behind(rt, lock, first, 1),
        || add_behind(rt, lock, second, 2),
    )
}

/// Takes the turn and gives it back once this many tickets are drawn.
fn hold_until<R: Wait>(rt: &R, lock: &TurnLock<Shelf>, turn: Turn, drawn: u64) -> (Turn, bool)
    requires { IsOf lock.now turn }
    ensures of { IsOf lock.entry.now result.0 }
    ensures same { (result.0.knows.caller ≡ turn.knows.caller) × (result.0.knows.used ≡ turn.knows.used)
        × (result.0.knows.out ≡ turn.knows.out) }
{
    let held = lock.take(rt, turn);
    let seen = until_drawn(lock, drawn);
    (lock.give(held), seen)
}

#[test]
fn who_came_first_is_served_first(rt: HostRuntime) -> Result<(), Fail> {
    let shelf = Shelf::build(rt.alloc(), 7);
    let (lock, mut root) = TurnLock::build(rt.alloc(), shelf)?;
    let first = lock.split(&mut root, 1);
    let second = lock.split(&mut root, 2);
    let (((first, a), (second, b)), (mut root, c)) = join(
        &rt,
        || add_behind_each(&rt, &lock, first, second),
        || hold_until(&rt, &lock, root, 3),
    );
    assert!(rt; a && b && c);
    lock.join(&mut root, first);
    lock.join(&mut root, second);
    let shelf = lock.close(root);
    let callers = shelf.entries().iter().map(|e| e.who.caller);
    assert!(rt; callers.eq([1, 2]));
    Ok(())
}
