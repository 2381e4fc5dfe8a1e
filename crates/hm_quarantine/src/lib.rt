//! The quarantine of a region: a freed slot stands in an array and then in a ring before it is released.
#![tactic(auto)]

mod array;
mod laws;
mod quarantine;
#[cfg(test)]
mod tests;

pub use laws::release_laws;
pub use quarantine::Quarantine;
