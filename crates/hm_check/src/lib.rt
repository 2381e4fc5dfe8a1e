//! The checker of journals: what the verdict on a text is, laws of it, and the verdict on a given text.
#![tactic(auto)]

mod checking;
mod laws;
mod lines;
mod progress;
mod region_book;
mod verdict;

pub use checking::check_journal;
pub use laws::{no_is_first_fault, one_verdict, yes_is_journal};
pub use verdict::{JournalFault, Verdict};

#[cfg(test)]
mod tests;
