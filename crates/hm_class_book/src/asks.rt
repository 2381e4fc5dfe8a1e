//! What is asked of an entry whatever its reply.
ghost use Rattle.std.specs.Prelude.{◌↔◌, IsTrue};
ghost use Rattle.hm_model.specs.Calls.{IsRange};
ghost use Rattle.hm_class_rules.specs.Rules.{Asks};
ghost use Rattle.hm_class_book.specs.Book.{state_in};
ghost use Rattle.hm_class_book.specs.Follows.{Follows};

use crate::book::Book;
use crate::draws::are_draws;
use hm_model::{Call, Entry};
use hm_sizes::{Shape, raised};

fn is_range(addr: u64, len: u64) -> bool
    ensures { IsTrue result ↔ IsRange addr len }
{
    let some = 1 <= len;
    let most = len <= 1 << 30;
    let below = addr < 1 << 47;
    some & most & below
}

// Whether a region serves these arguments.
fn asks(shape: &Shape, call: &Call) -> bool
    ensures { IsTrue result ↔ Asks shape.now call.now }
{
    match call {
        Call::Allot { asked, align } => {
            let small = raised(*asked) <= shape.class_size();
            let one = *align == 1;
            small & one
        }
        Call::Fetch { addr, len } => is_range(*addr, *len),
        Call::Fill { addr, runs } => is_range(*addr, runs.len()),
        Call::GiveBack { addr: _, stated: _ } => true,
        Call::Measure { addr: _ } => true,
    }
}

impl Book {
    /// Whether an entry may come next, by all but its reply, its choices and its words.
    pub fn may_follow(&self, shape: &Shape, entry: &Entry) -> bool
        ensures { IsTrue result ↔ Follows shape.now (state_in self.now) entry.now }
    {
        let draws = are_draws(&entry.draws);
        let asks = asks(shape, &entry.call);
        let follows = entry.faults_before == self.faults;
        let later = entry.faults_before <= entry.faults_after;
        draws & asks & follows & later
    }
}
