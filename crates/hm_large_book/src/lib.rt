//! The large region's rules as a program: a book of its state judges one entry after another.
#![tactic(auto)]

mod allots;
mod blocks;
mod book;
mod bytes;
mod calls;
mod changes;
mod formed;
mod frees;
mod judgement;
mod least;
mod looks;
mod writes;

pub use book::LargeBook;
