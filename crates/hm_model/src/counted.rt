//! Values that count the entries of their history.
ghost use Rattle.std.specs.Prelude.{◌≡◌, List, length};
ghost use Rattle.hm_model.specs.declared.entry.Entry.{Entry};

/// A value with a history of entries.
pub trait Counted {
    /// Its entries, oldest first.
    ghost counted: { Self → List Entry };

    /// How many entries there are.
    fn count(&self) -> u64
        ensures { result ≡ length (counted self.now) };
}
