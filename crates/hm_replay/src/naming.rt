//! The name that a step sets by its answer, or leaves as it is.
ghost use Rattle.std.specs.Prelude.{◌≡◌, IfSome, OnOk, OnErr};
ghost use Rattle.hm_trace.specs.Views.{name_view, step_view};
ghost use Rattle.hm_heap.specs.Requests.{AnswerInReach, IsInReach};
ghost use Rattle.hm_replay.specs.Names.{touched_by, touched_too};
ghost use Rattle.hm_replay.specs.Steps.{given_by, new_address_by, named};

use crate::addresses::Addresses;
use hm_base::NoMemory;
use hm_model::{Answer, Reply};
use hm_trace::{Name, Step};

// The address that an answer gives.
fn given(answer: &Answer) -> Option<u64>
    ensures value { result ≡ given_by answer.now }
    ensures reach { AnswerInReach answer.now → IfSome result IsInReach }
{
    match answer {
        Answer::Reply(Reply::Given { addr, .. }) => Some(*addr),
        _ => None,
    }
}

// The address of the block that a reallocation leaves.
fn new_address(answer: &Answer) -> Option<u64>
    ensures value { result ≡ new_address_by answer.now }
    ensures reach { AnswerInReach answer.now → IfSome result IsInReach }
{
    match answer {
        Answer::Reply(Reply::Given { addr, .. })
        | Answer::Kept { addr, .. }
        | Answer::HalfMoved { addr, .. } => Some(*addr),
        _ => None,
    }
}

// A name stays as it is, and counts as one that was set.
fn touch<E: Addresses>(env: &mut E, name: Name) -> Result<(), NoMemory>
    ensures value { OnOk result (E.names env.new ≡ E.names env.old) }
    ensures touched { OnOk result (E.touched env.new ≡ touched_too (E.touched env.old) (name_view name)) }
    ensures memory { OnErr result (env.new ≡ env.old) }
{
    let given = env.get(&name);
    env.set(name, given)
}

/// The name of a step that is skipped stays as it is, and counts as one that was set.
pub(crate) fn skip<E: Addresses>(env: &mut E, step: &Step) -> Result<(), NoMemory>
    ensures value { OnOk result (E.names env.new ≡ E.names env.old) }
    ensures touched { OnOk result (E.touched env.new ≡ touched_by (E.touched env.old) (step_view step.now)) }
    ensures memory { OnErr result (env.new ≡ env.old) }
{
    match step.name_set() {
        Some(name) => touch(env, name),
        None => Ok(()),
    }
}

/// Sets the name of a step that was answered.
pub(crate) fn name<E: Addresses>(env: &mut E, step: &Step, answer: &Answer) -> Result<(), NoMemory>
    requires reach { AnswerInReach answer.now }
    ensures value { OnOk result (E.names env.new ≡ named (E.names env.old) (step_view step.now) answer.now) }
    ensures touched { OnOk result (E.touched env.new ≡ touched_by (E.touched env.old) (step_view step.now)) }
    ensures memory { OnErr result (env.new ≡ env.old) }
{
    match step {
        Step::Malloc { name, .. } | Step::Calloc { name, .. } | Step::Aligned { name, .. } => {
            env.set(*name, given(answer))
        }
        Step::Realloc { name, .. } => match new_address(answer) {
            Some(addr) => env.set(*name, Some(addr)),
            None => touch(env, *name),
        },
        _ => Ok(()),
    }
}
