//! What is said of an entry that is taken for the next one of a region's history.

/// What is said of an entry, in the state of the entries before it.
#[derive(Clone, Copy, Debug, PartialEq, Eq, Drop)]
pub enum Judgement {
    /// It is allowed there, and its words and choices are those that come next.
    Taken,
    /// It is not allowed there.
    NotLegal,
    /// It is allowed there, and its words or choices are others.
    NotDrawn,
}
