//! Tests of what the program runs, over what stands in memory for the outside.
#![tactic(auto)]

#[cfg(test)]
mod ample_tests;
#[cfg(test)]
mod check_table_tests;
#[cfg(test)]
mod check_tests;
#[cfg(test)]
mod gate_tests;
#[cfg(test)]
mod hostile_tests;
#[cfg(test)]
mod journal_tests;
#[cfg(test)]
mod long_tests;
#[cfg(test)]
mod stats_tests;
#[cfg(test)]
mod test_runs;
#[cfg(test)]
mod tests;
#[cfg(test)]
mod version_two_tests;
#[cfg(test)]
mod watch_tests;
#[cfg(test)]
mod words_tests;
