//! The results of a replay: their text, one line for each note and each step, their summary, and whether an answer
//! among them is a finding.
#![tactic(auto)]

mod counts;
mod findings;
mod laws;
mod lines;
mod notes;
mod results;
mod summary_line;
mod text;
mod totals;

pub use findings::{has_finding, is_finding_reply};
pub use laws::findings_show;
pub use lines::report;
pub use notes::{Note, RoundNotes};
pub use results::{Results, StepResult};
pub use summary_line::{RunSummary, summary};
pub use totals::write_totals;

#[cfg(test)]
mod tests;
