//! The names that the closed scripts of a round set.
ghost use Rattle.std.specs.Prelude.{◌≡◌, ◌||◌, List, OnOk, true, if◌then◌else◌};
ghost use Rattle.std.specs.List.{list_any};
ghost use Rattle.hm_trace.specs.declared.names.Name.{Name};
ghost use Rattle.hm_trace.specs.Names.{is_word};
ghost use Rattle.hm_trace.specs.ReadState.{has_name, IsIndex};
ghost use Rattle.hm_trace.specs.Traces.{sets_name, sets_again};
ghost use Rattle.hm_trace.specs.Views.{ScriptView, name_view, step_view, steps_view};

use crate::names::Name;
use crate::step::Step;
use std::alloc::AllocError;
use std::collections::BTreeSet;

fn has(names: &BTreeSet<Name>, name: &Name) -> bool
    ensures { result ≡ has_name names.now.keys (name_view name.now) }
{
    names.contains(name)
}

/// Whether a step sets a name that is among them.
pub(crate) fn sets_again(names: &BTreeSet<Name>, step: &Step) -> bool
    ensures { (scripts : List ScriptView) → IsIndex names.now.keys scripts
        → result ≡ sets_again scripts (step_view step.now) }
{
    match step.name_set() {
        Some(name) => has(names, &name),
        None => false,
    }
}

fn take_name(names: &mut BTreeSet<Name>, name: Name) -> Result<(), AllocError>
    ensures { OnOk result ((q : Name) → has_name names.new.keys (name_view q)
        ≡ (if is_word (name_view name) (name_view q) then true else has_name names.old.keys (name_view q))) }
{
    names.insert(name)?;
    Ok(())
}

/// The names that a script sets join the others.
pub(crate) fn take_names(names: &mut BTreeSet<Name>, steps: &[Step]) -> Result<(), AllocError>
    ensures { OnOk result ((q : Name) → has_name names.new.keys (name_view q)
        ≡ (has_name names.old.keys (name_view q) || list_any (sets_name (name_view q)) (steps_view steps.now))) }
{
    for step in steps {
        if let Some(name) = step.name_set() {
            take_name(names, name)?;
        }
    }
    Ok(())
}
