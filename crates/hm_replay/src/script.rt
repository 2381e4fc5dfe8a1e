//! One script, step by step.
ghost use Rattle.std.specs.Prelude.{◌≡◌, ◌≤◌, ℕ, [], length, true, IfOk, OnErr};
ghost use Rattle.std.specs.List.{list_all};
ghost use Rattle.hm_trace.specs.Limits.{most_steps};
ghost use Rattle.hm_trace.specs.Traces.{is_step};
ghost use Rattle.hm_trace.specs.Views.{step_view, steps_view};
ghost use Rattle.hm_heap.specs.Passes.{AreOf};
ghost use Rattle.hm_replay.specs.Gains.{GainsResult, GainsResults, GainsStop, GainsFrontOf, WentOn, terms_of, mine_of};
ghost use Rattle.hm_replay.specs.Names.{held, touched_all, touched_by};
ghost use Rattle.hm_replay.specs.Scripts.{IsFront, RunsAllSteps};
ghost use Rattle.hm_replay.specs.Steps.{names_after};

use crate::addresses::Addresses;
use crate::calls::call;
use crate::env::Env;
use crate::naming::{name, skip};
use crate::places::base_of;
use crate::setting::Setting;
use hm_base::{List, NoMemory};
use hm_heap::Pass;
use hm_outside::{Gate, Pages};
use hm_report::{Results, StepResult};
use hm_trace::{Script, Step};
use std::sync::Wait;

// Runs one step.
fn run_step<R: Wait, P: Pages, G: Gate, E: Addresses>(
    setting: &Setting<'_, '_, R, P, G>,
    pass: &mut Pass,
    env: &mut E,
    step_number: u32,
    step: &Step,
) -> Result<StepResult, NoMemory>
    requires of { AreOf setting.now.heap.now.locks pass.old.turns }
    requires valid { is_step (step_view step.now) ≡ true }
    ensures run { WentOn setting.now.heap.now.locks pass.old pass.new }
    ensures ran { IfOk result
        (GainsResult setting.now.heap.now pass.old pass.new step_number (E.names env.old) (step_view step.now)) }
    ensures names { IfOk result (λ r. E.names env.new ≡ names_after (E.names env.old) (step_view step.now) r.answer) }
    ensures touched { IfOk result (λ _. E.touched env.new ≡ touched_by (E.touched env.old) (step_view step.now)) }
    ensures stops { OnErr result
        (GainsStop setting.now.heap.now pass.old pass.new step_number (E.names env.old) (step_view step.now)) }
    ensures kept { OnErr result (env.new ≡ env.old) }
{
    let Some(base) = base_of(env, step) else {
        skip(env, step)?;
        return Ok(StepResult {
            base: 0,
            answer: None,
        });
    };
    let answer = call(setting, pass, step_number, step, base)?;
    name(env, step, &answer)?;
    Ok(StepResult {
        base,
        answer: Some(answer),
    })
}

// Runs the steps, one after another.
fn run_steps<R: Wait, P: Pages, G: Gate, E: Addresses>(
    setting: &Setting<'_, '_, R, P, G>,
    pass: &mut Pass,
    env: &mut E,
    steps: &[Step],
) -> Result<Vec<StepResult>, NoMemory>
    requires of { AreOf setting.now.heap.now.locks pass.old.turns }
    requires valid { list_all is_step (steps_view steps.now) ≡ true }
    requires few { length steps.now ≤ most_steps }
    ensures run { WentOn setting.now.heap.now.locks pass.old pass.new }
    ensures ran { IfOk result (λ rs. GainsResults setting.now.heap.now pass.old pass.new (E.names env.old)
        (steps_view steps.now) rs.items (E.names env.new)) }
    ensures touched { IfOk result (λ _. E.touched env.new ≡ touched_all (E.touched env.old) (steps_view steps.now)) }
    ensures stops { OnErr result (GainsFrontOf setting.now.heap.now pass.old pass.new (E.names env.old)
        (steps_view steps.now) (E.names env.new)) }
{
    let mut results = Vec::with_capacity(setting.alloc, steps.len())?;
    for (index, step) in steps.iter().enumerate() {
        let result = run_step(setting, pass, env, index as u32 + 1, step)?;
        results.push(result)?;
    }
    Ok(results)
}

/// Runs a script with any kind of names, as `run_script` does.
pub(crate) fn run_with<R: Wait, P: Pages, G: Gate, E: Addresses>(
    setting: &Setting<'_, '_, R, P, G>,
    pass: &mut Pass,
    script: &Script,
    env: &mut E,
) -> Result<Results, NoMemory>
    requires of { AreOf setting.now.heap.now.locks pass.old.turns }
    requires thread { pass.old.thread ≡ script.now.thread }
    requires fresh { (index : ℕ) → mine_of pass.old.turns index ≡ [] }
    ensures run { WentOn setting.now.heap.now.locks pass.old pass.new }
    ensures results { IfOk result (λ rs. (rs.round ≡ pass.old.round) × (rs.thread ≡ script.now.thread)) }
    ensures ran { IfOk result (λ rs. RunsAllSteps (terms_of setting.now.heap.now pass.old) (E.names env.old)
        script.now.steps rs.items (E.names env.new) (mine_of pass.new.turns)) }
    ensures touched { IfOk result (λ _. E.touched env.new ≡ touched_all (E.touched env.old) script.now.steps) }
    ensures stops { OnErr result (IsFront (terms_of setting.now.heap.now pass.old) (E.names env.old)
        script.now.steps (E.names env.new) (mine_of pass.new.turns)) }
{
    let items = run_steps(setting, pass, env, script.steps())?;
    Ok(Results {
        round: pass.round(),
        thread: script.thread(),
        items: List::of(items),
    })
}

/// Runs a script under a pass that has made no call yet. For want of memory it ends after any number of its steps, none
/// or all among them, and the first parts of the next one may have been made: the names are then as the steps before
/// have left them.
pub fn run_script<R: Wait, P: Pages, G: Gate>(
    setting: &Setting<'_, '_, R, P, G>,
    pass: &mut Pass,
    script: &Script,
    env: &mut Env,
) -> Result<Results, NoMemory>
    requires of { AreOf setting.now.heap.now.locks pass.old.turns }
    requires thread { pass.old.thread ≡ script.now.thread }
    requires fresh { (index : ℕ) → mine_of pass.old.turns index ≡ [] }
    ensures run { WentOn setting.now.heap.now.locks pass.old pass.new }
    ensures results { IfOk result (λ rs. (rs.round ≡ pass.old.round) × (rs.thread ≡ script.now.thread)) }
    ensures ran { IfOk result (λ rs. RunsAllSteps (terms_of setting.now.heap.now pass.old) (held env.old)
        script.now.steps rs.items (held env.new) (mine_of pass.new.turns)) }
    ensures stops { OnErr result (IsFront (terms_of setting.now.heap.now pass.old) (held env.old)
        script.now.steps (held env.new) (mine_of pass.new.turns)) }
{
    run_with(setting, pass, script, env)
}
