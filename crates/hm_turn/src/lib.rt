//! A lock whose holders know the history of its value: who holds the turn may change the value, and each
//! turn knows a beginning of the value's history, with all entries of its own caller.
#![tactic(auto)]

mod joins;
mod kept;
mod lends;
mod lock;
mod shelf;
mod steps;
mod tickets;
mod turn;
mod view;

pub use kept::Kept;
pub use lock::TurnLock;
pub use shelf::Shelf;
pub use turn::{Held, Turn};
pub use view::View;

#[cfg(test)]
mod tests;
