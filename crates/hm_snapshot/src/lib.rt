//! The sizes of blocks, published by one writer and read by others without waiting.
#![tactic(auto)]

mod entries;
mod reader;
mod rule;
mod sizes;
mod writer;

pub use reader::{SizeReader, Unread};
pub use rule::{Known, OnlyGrows};
pub use sizes::Sizes;
pub use writer::{ReaderRefusal, SizeWriter};

#[cfg(test)]
mod tests;
