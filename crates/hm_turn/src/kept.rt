//! What a lock can keep: a value with a history of entries, and an origin.
ghost use Rattle.std.specs.Prelude.{◌≡◌, ℕ, List, length};
ghost use Rattle.hm_model.specs.declared.entry.Entry.{Entry};

/// A value with a history of entries, and an origin that no call on the value changes.
pub trait Kept: Send + Drop {
    ghost entries: { Self → List Entry };

    ghost origin: { Self → List ℕ };

    /// The number of entries.
    fn len(&self) -> u64
        ensures { result ≡ length (entries self.now) };
}
