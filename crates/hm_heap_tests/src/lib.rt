//! Tests of a heap of regions, and of scripts and rounds on it, over pages in memory.
#![tactic(auto)]

#[cfg(test)]
mod heap_tests;
#[cfg(test)]
mod round_tests;
