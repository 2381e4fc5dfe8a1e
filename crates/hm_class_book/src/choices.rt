//! Which choices an entry says.
ghost use Rattle.std.specs.Prelude.{◌≡◌, ◌↔◌, IsTrue};
ghost use Rattle.hm_model.specs.Calls.{no_choices};

use crate::sources::is_same;
use hm_model::Choices;

/// Whether two options are the same.
pub(crate) fn is_option(option: Option<u64>, other: Option<u64>) -> bool
    ensures { IsTrue result ↔ option ≡ other }
{
    match option {
        None => other.is_none(),
        Some(number) => is_same(other, number),
    }
}

fn are(choices: &Choices, others: &Choices) -> bool
    ensures { IsTrue result ↔ choices.now ≡ others.now }
{
    let canary = is_option(choices.canary, others.canary);
    let opened = is_option(choices.opened, others.opened);
    let released = is_option(choices.released, others.released);
    let retired = is_option(choices.retired, others.retired);
    let purged = is_option(choices.purged, others.purged);
    let unparked = is_option(choices.unparked, others.unparked);
    let guard = is_option(choices.guard, others.guard);
    canary & opened & released & retired & purged & unparked & guard
}

/// Whether nothing is chosen.
pub(crate) fn are_none(choices: &Choices) -> bool
    ensures { IsTrue result ↔ choices.now ≡ no_choices }
{
    are(choices, &Choices::none())
}

/// Whether nothing is chosen but a slab that is opened, and its canary.
pub(crate) fn are_picking(choices: &Choices) -> bool
    ensures { IsTrue result
        ↔ choices.now ≡ record no_choices { canary = choices.now.canary; opened = choices.now.opened } }
{
    let others = Choices {
        canary: choices.canary,
        opened: choices.opened,
        ..Choices::none()
    };
    are(choices, &others)
}

/// Whether nothing is chosen but what leaves the quarantine, and what becomes of a slab.
pub(crate) fn are_freeing(choices: &Choices) -> bool
    ensures { IsTrue result ↔ choices.now ≡ record no_choices {
      released = choices.now.released;
      retired = choices.now.retired;
      purged = choices.now.purged;
      unparked = choices.now.unparked;
    } }
{
    let others = Choices {
        released: choices.released,
        retired: choices.retired,
        purged: choices.purged,
        unparked: choices.unparked,
        ..Choices::none()
    };
    are(choices, &others)
}
