//! The law of what a check says of a source that tells. The function does nothing of its own: its contract is the law.
ghost use Rattle.std.specs.Prelude.{◌≡◌, ℕ, List, Some, String};
ghost use Rattle.std.specs.declared.alloc.Global.{Global};
ghost use Rattle.hm_run.specs.declared.run.Run.{Run};
ghost use Rattle.hm_run.specs.Endings.{Ends};
ghost use Rattle.hm_run.specs.Streams.{Stream};
ghost use Rattle.hm_run.specs.Words.{AsksCheck};
ghost use Rattle.hm_run.specs.declared.status.Status.TheVariants.{Clean, Finding};
ghost use Rattle.hm_run.specs.Statuses.{code_of};
ghost use Rattle.hm_run.specs.ToldChecks.{TellsJournal, TellsFirstFault};

use hm_check::{no_is_first_fault, yes_is_journal};
use hm_outside::Pages;

/// Where the words ask for a source to be checked and it tells its bytes, a run ends with 0 only where they are the journal
/// of legal and drawn histories, and wrote how many entries these have; and with 1 only where one of their lines is the
/// first at fault, and wrote which one and why.
pub fn told_checks_are_exact<P: Pages>()
    ensures yes { (words : List (String Global)) (run : Run P) (source sink : Stream) (bytes : List ℕ)
        → Ends P.Pages words run source sink → AsksCheck words → source.before ≡ Some bytes
        → run.status ≡ code_of Clean → TellsJournal sink bytes }
    ensures no { (words : List (String Global)) (run : Run P) (source sink : Stream) (bytes : List ℕ)
        → Ends P.Pages words run source sink → AsksCheck words → source.before ≡ Some bytes
        → run.status ≡ code_of Finding → TellsFirstFault sink bytes }
{
    yes_is_journal();
    no_is_first_fault();
}
