//! Random choices: streams of words of ChaCha with 8 rounds, and what is drawn from them.
#![tactic(auto)]

mod laws;
mod stream;
#[cfg(test)]
mod tests;

pub use laws::back_law;
pub use stream::Stream;
