//! Traces of calls to the allocator: what they are, how they are spelled, the faults of a text that is none, and
//! the stress traces.
#![tactic(auto)]

mod fault;
mod laws;
mod limits;
mod lines;
mod names;
mod numbers;
mod progress;
mod reading;
mod setters;
mod step;
mod step_words;
mod stress;
mod trace;
mod version;
mod words;
mod writing;

pub use fault::{FaultKind, ReadRefusal, TraceFault};
pub use hm_report::Note;
pub use laws::{
    first_version, spellings_are_short, spellings_differ, spellings_have_no_fault, stress_is_trace,
    texts_without_fault_are_spelled,
};
pub use names::Name;
pub use reading::read_trace;
pub use step::{Place, Step};
pub use stress::stress_trace;
pub use trace::{Round, Script, Trace};
pub use version::Version;
pub use writing::write_trace;

#[cfg(test)]
mod tests;
