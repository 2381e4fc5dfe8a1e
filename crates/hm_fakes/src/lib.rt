//! What stands in memory for the outside, for tests: sources and sinks, pages that tell, fail or tell nothing, their
//! makers, and gates. No crate of the program lists it.
#![tactic(auto)]

mod failing_maker;
mod failing_pages;
mod gates;
mod numbered;
#[cfg(test)]
mod page_tests;
mod plain_maker;
mod plain_pages;
mod run;
mod silent_maker;
mod silent_pages;
mod vec_sink;
mod vec_source;

pub use failing_maker::FailingMaker;
pub use failing_pages::FailingPages;
pub use gates::{Holding, Meeting, comes_to};
pub use plain_maker::PlainMaker;
pub use plain_pages::PlainPages;
pub use silent_maker::SilentMaker;
pub use silent_pages::SilentPages;
pub use vec_sink::VecSink;
pub use vec_source::VecSource;
