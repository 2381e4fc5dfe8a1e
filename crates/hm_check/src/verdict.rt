//! Verdicts on a text: it is a journal, or its first line at fault and why.

/// Why a line is at fault: the first of these that holds.
#[derive(Clone, Copy, Debug, PartialEq, Eq, Drop)]
pub enum JournalFault {
    /// No journal has this line after those before it; or it has no line feed, or is missing.
    BadText,
    /// The entry is not allowed after those before it, or the region's last count of page faults is another.
    NotLegal,
    /// The words or the choices of the entry, or where the region begins, are not those of the seed.
    NotDrawn,
}

/// Whether a text is a journal of legal and drawn histories.
#[derive(Clone, Copy, Debug, PartialEq, Eq, Drop)]
pub enum Verdict {
    /// It is, of so many entries.
    Yes { entries: u64 },
    /// It is not; the first line at fault, and why it is.
    No { line: u64, fault: JournalFault },
}
