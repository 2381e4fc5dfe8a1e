//! The stress trace of a seed: one round in which each thread makes groups of five steps, whose sizes follow
//! from the seed.
ghost use Rattle.std.specs.Prelude.{◌≡◌, ◌<◌, ◌++◌, length, slice_get, EachIndex, IfOk, OnOk, Some};
ghost use Rattle.std.specs.Option.{option_map};
ghost use Rattle.hm_trace.specs.Stress.{first, next, size_for, name_at, group, groups, stress};
ghost use Rattle.hm_trace.specs.Views.{name_view, steps_view};

use crate::names::Name;
use crate::step::{Place, Step, push_step};
use crate::trace::{Round, Script, Trace};
use crate::version::Version;
use hm_base::NoMemory;
use std::alloc::{AllocError, Global};

/// How many threads there are.
const THREADS: u32 = 16;

/// How many groups each thread makes.
const GROUPS: u64 = 2500;

/// How many names each thread sets in turn.
const NAMES: u64 = 50;

/// How many steps each thread makes: five in each of its groups.
const STEPS: usize = 5 * GROUPS as usize;

/// What each number of a thread is multiplied by for the next one, as in the generator of Knuth's MMIX.
const MULTIPLIER: u64 = 6_364_136_223_846_793_005;

/// What is then added, as in the same generator.
const INCREMENT: u64 = 1_442_695_040_888_963_407;

/// The stress trace of a seed.
#[tactic(auto, unfolding(crate::specs::Stress::scripts))]
pub fn stress_trace(alloc: Global, seed: u64) -> Result<Trace, NoMemory>
    ensures exact { IfOk result (λ trace. trace ≡ stress seed) }
{
    let mut scripts = Vec::new(alloc);
    for i in 0..THREADS {
        let thread = i + 1;
        let steps = steps_of(alloc, seed, thread)?;
        scripts.push(Script::of(thread, steps))?;
    }
    let mut rounds = Vec::new(alloc);
    rounds.push(Round::of(Vec::new(alloc), scripts))?;
    Ok(Trace::of(Version::One, rounds))
}

/// The steps of a thread.
#[tactic(auto, unfolding(crate::specs::Stress::state, crate::specs::Stress::groups))]
fn steps_of(alloc: Global, seed: u64, thread: u32) -> Result<Vec<Step>, AllocError>
    ensures { IfOk result (λ list. steps_view list.items ≡ groups seed thread 2500) }
{
    let names = names_of(alloc, thread)?;
    let mut steps = Vec::with_capacity(alloc, STEPS)?;
    let mut x = first(seed, thread);
    for j in 0..GROUPS {
        x = next(x);
        push_group(&mut steps, &names, thread, j, x >> 33)?;
    }
    Ok(steps)
}

/// The names that a thread sets in turn.
fn names_of(alloc: Global, thread: u32) -> Result<Vec<Name>, AllocError>
    ensures count { IfOk result (λ list. length list.items ≡ 50) }
    ensures each { IfOk result (λ list.
        EachIndex list.items (λ i. option_map name_view (slice_get list.items i) ≡ Some (name_at thread i))) }
{
    let mut names = Vec::with_capacity(alloc, NAMES as usize)?;
    for i in 0..NAMES {
        names.push(name_of(alloc, thread, i)?)?;
    }
    Ok(names)
}

/// What a thread's numbers begin with.
fn first(seed: u64, thread: u32) -> u64
    ensures { result ≡ first seed thread }
{
    seed.wrapping_mul(16).wrapping_add(u64::from(thread))
}

/// The number after `x`.
fn next(x: u64) -> u64
    ensures { result ≡ next x }
{
    x.wrapping_mul(MULTIPLIER).wrapping_add(INCREMENT)
}

/// Adds the steps of a thread's group `j`, whose size follows from `v`. The block that it frees is that of 25
/// groups before.
fn push_group(
    steps: &mut Vec<Step>,
    names: &[Name],
    thread: u32,
    j: u64,
    v: u64,
) -> Result<(), AllocError>
    requires within { j < 2500 }
    requires count { length names.now ≡ 50 }
    requires each { EachIndex names.now
        (λ i. option_map name_view (slice_get names.now i) ≡ Some (name_at thread i)) }
    ensures { OnOk result (steps_view steps.new.items ≡ steps_view steps.old.items ++ group thread j v) }
{
    let name = names[(j % NAMES) as usize];
    let other = names[((j + NAMES / 2) % NAMES) as usize];
    let (size, len, byte) = (size_for(v), 1, 0x41);
    let place = Place::Named { name, offset: 0 };
    push_step(steps, Step::Malloc { name, size })?;
    push_step(steps, Step::Write { place, len, byte })?;
    push_step(steps, Step::Size { place })?;
    push_step(steps, Step::Read { place, len })?;
    let place = Place::Named {
        name: other,
        offset: 0,
    };
    push_step(steps, Step::Free { place })
}

fn size_for(v: u64) -> u64
    ensures { result ≡ size_for v }
{
    if v % 64 == 0 { 200_000 } else { 1 + v % 4096 }
}

fn name_of(alloc: Global, thread: u32, i: u64) -> Result<Name, AllocError>
    ensures { IfOk result (λ name. name_view name ≡ name_at thread i) }
{
    let text = format!(in alloc; "t{thread}n{i}")?;
    Ok(Name::of_name(text.as_bytes()))
}
