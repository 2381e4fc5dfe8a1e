//! The calls of the program: `replay` reads words and a source, runs what they ask for and writes it to a sink. The
//! theorem stands on its clauses and on the laws beside it.
#![tactic(auto)]

mod check_laws;
mod laws;
mod notes;
mod reading;
mod refusal;
mod rounds;
mod run;
mod status;
mod trace_fault;
mod verdict_line;
mod watching;
mod words;
mod writing;

pub use check_laws::told_checks_are_exact;
pub use laws::{
    checks_are_complete, checks_are_exact, faults_show, findings_are_exact, freed_blocks_come_late,
    given_blocks_are_zero, journals_tell, live_blocks_apart, no_trace_is_exact,
    refusals_have_causes, runs_are_complete, too_long_is_exact, usage_is_exact,
};
pub use rounds::Machine;
pub use run::{Run, replay};
pub use status::Status;
pub use words::{Asked, Command, Options, Output, Template, read_words};
