//! The words of the lock's table, its rule, and what each step on a word tells.
ghost use Rattle.std.specs.Prelude.{ℕ};
ghost use Rattle.hm_turn.specs.Rule.{Orderly};
ghost use Rattle.hm_turn.specs.Steps.{drawn, awaited, observed, asked, counted, added, freed, informed};
ghost use Rattle.hm_turn.specs.Views.{founder, splitting, entering, joining, spent};

use crate::{Kept, View};
use atomic_table::{Join, Play, Split, TableRule};
use std::marker::{Brand, PhantomData};
use std::snapshot::Snapshot;

/// The word that has the next number to draw.
pub(crate) const TICKET: usize = 0;

/// The word that has the number whose turn it is.
pub(crate) const SERVING: usize = 1;

/// The word that has the number of entries.
pub(crate) const COUNT: usize = 2;

/// The rule. The key is the value that the lock was built over.
pub struct Order<T> {
    marker: PhantomData<T>,
}

impl<T: Kept> TableRule<Option<T>, View, Snapshot<T>> for Order<T> {
    ghost holds = { λ key. Orderly T.entries T.origin (T.origin key.value) };

    ghost first = { λ key. founder (T.origin key.value) };
}

/// A ticket is drawn, by a seat that will wait for it.
pub(crate) struct Draw<T> {
    marker: PhantomData<T>,
}

impl<T: Kept> Play<Option<T>, View> for Draw<T> {
    ghost then = { drawn };
}

/// The number served is read by a seat that waits for its ticket.
pub(crate) struct Await<T> {
    marker: PhantomData<T>,
}

impl<T: Kept> Play<Option<T>, View> for Await<T> {
    ghost then = { awaited T.entries T.origin };
}

/// The number served is read by a seat that will not wait.
pub(crate) struct Observe<T> {
    marker: PhantomData<T>,
}

impl<T: Kept> Play<Option<T>, View> for Observe<T> {
    ghost then = { observed };
}

/// The number noted is asked for.
pub(crate) struct Ask<T> {
    marker: PhantomData<T>,
}

impl<T: Kept> Play<Option<T>, View> for Ask<T> {
    ghost then = { asked T.entries T.origin };
}

/// The count is read by the seat that holds the turn.
pub(crate) struct Count<T> {
    marker: PhantomData<T>,
}

impl<T: Kept> Play<Option<T>, View> for Count<T> {
    ghost then = { counted };
}

/// Names the entries that are known after one was counted. Each call picks them.
pub trait Written {
    ghost use Rattle.std.specs.Prelude.{List};
    ghost use Rattle.hm_model.specs.declared.entry.Entry.{Entry};

    ghost entries: { List Entry };
}

impl Written for Brand {
    ghost use Rattle.std.specs.Prelude.{[]};

    ghost entries = { [] };
}

/// An entry is counted.
pub(crate) struct Add<N> {
    marker: PhantomData<N>,
}

impl<T: Kept, N: Written> Play<Option<T>, View> for Add<N> {
    ghost then = { added N.entries };
}

/// The next number is served.
pub(crate) struct Free<T> {
    marker: PhantomData<T>,
}

impl<T: Kept> Play<Option<T>, View> for Free<T> {
    ghost then = { freed };
}

/// The seat of caller 0 looks at what it knows of the callers.
pub(crate) struct Learn<T> {
    marker: PhantomData<T>,
}

impl<T: Kept> Play<Option<T>, View> for Learn<T> {
    ghost then = { informed };
}

/// Names the caller that is split off. Each call picks it.
pub trait Naming {
    ghost caller: { ℕ };
}

impl Naming for Brand {
    ghost caller = { 0 };
}

/// A seat is split off.
pub(crate) struct Cut<N> {
    marker: PhantomData<N>,
}

impl<N: Naming> Split<View> for Cut<N> {
    ghost left = { λ v. splitting v N.caller };

    ghost right = { λ v. entering v N.caller };
}

/// A seat is joined to that of caller 0.
pub(crate) struct Ends;

impl Join<View> for Ends {
    ghost both = { joining };

    ghost spent = { spent };
}
