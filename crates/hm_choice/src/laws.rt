//! The law of giving a word back. The function does nothing: its contract is the law.
ghost use Rattle.hm_choice.specs.Stream.{ComesAgain};

/// A word that is taken and given back comes again.
pub fn back_law()
    ensures { ComesAgain }
{}
