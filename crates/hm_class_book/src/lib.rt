//! The book of a class region: its history's state and what its choices are drawn from. It takes one entry after
//! another, and says of each whether it is allowed and drawn.
#![tactic(auto)]

mod access;
mod allot;
mod asks;
mod blocks;
mod book;
mod bytes;
mod changes;
mod choices;
mod class_book;
mod draws;
mod free;
mod kinds;
mod overlay;
mod places;
mod refusals;
mod region;
mod slab_bytes;
mod slabs;
mod sources;
#[cfg(test)]
mod tests;

pub use class_book::ClassBook;
