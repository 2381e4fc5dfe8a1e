//! Tests of both kinds of region, and of ranges that are read piece by piece, over pages in memory.
#![tactic(auto)]

#[cfg(test)]
mod class_tests;
#[cfg(test)]
mod large_tests;
#[cfg(test)]
mod lending_pages;
#[cfg(test)]
mod range_tests;
