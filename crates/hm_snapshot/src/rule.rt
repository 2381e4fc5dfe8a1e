//! The rule over the two copies, and what a step under it tells.
ghost use Rattle.std.specs.Prelude.{◌≡◌, List, [], ◌++◌};
ghost use Rattle.hm_model.specs.declared.change.SizeChange.{SizeChange};
ghost use Rattle.hm_snapshot.specs.Rule.{Grows};
ghost use Rattle.hm_snapshot.specs.Known.{found};

use crate::Sizes;
use atomic_table::{Join, Split};
use crossbeam_utils::rule::{Outcome, Protocol};
use hm_model::SizeChange;
use std::collections::LinkedList;
use std::marker::{Brand, PhantomData};

/// What a seat knows: a beginning of the published changes. No value of it is made.
pub type Known = LinkedList<SizeChange>;

/// The published changes only grow.
pub struct OnlyGrows;

impl Protocol<Sizes, Known> for OnlyGrows {
    ghost holds = { Grows };

    ghost first = { [] };
}

/// A reader looks.
pub(crate) struct Looks;

impl Outcome<Sizes, Known> for Looks {
    ghost then = { found };
}

/// Names the changes that are added. Each call picks them.
pub trait Adding {
    ghost added: { List SizeChange };
}

impl Adding for Brand {
    ghost added = { [] };
}

/// The writer shows more changes.
pub(crate) struct Adds<N> {
    marker: PhantomData<N>,
}

impl<N: Adding> Outcome<Sizes, Known> for Adds<N> {
    ghost then = { λ v x y w. w ≡ v ++ N.added };
}

/// The writer tells what it knows.
pub(crate) struct Tells;

impl Split<Known> for Tells {
    ghost left = { λ v. v };

    ghost right = { λ v. v };
}

/// A new reader takes in what it is told.
pub(crate) struct Hears;

impl Join<Known> for Hears {
    ghost both = { λ v w. w };

    ghost spent = { [] };
}
