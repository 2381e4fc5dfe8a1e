//! How many results of a run there are of each kind.
ghost use Rattle.std.specs.Prelude.{◌≡◌, ◌+◌, ◌^◌, ◌<◌, length, count_by};
ghost use Rattle.hm_report.specs.declared.counts.Kind.{Kind};
ghost use Rattle.hm_report.specs.Summary.{reply_kind, kind_of, is_of, counts_of};
ghost use Rattle.hm_report.specs.Counts.{count_of, with_one_more};

use crate::{Results, StepResult};
use hm_model::{Answer, Reply};

/// What the summary counts a result as.
enum Kind {
    Given,
    Written,
    Size,
    Bytes,
    Freed,
    Skipped,
    Other,
}

/// How many results there are of each kind. Those of many scripts may be more than 64 bits hold.
#[derive(Default, Drop)]
pub(crate) struct Counts {
    pub given: u128,
    pub written: u128,
    pub size: u128,
    pub bytes: u128,
    pub freed: u128,
    pub skipped: u128,
    pub other: u128,
}

impl Counts {
    /// How many of these results there are of each kind.
    pub(crate) fn of(results: &[Results]) -> Counts
        ensures { result ≡ counts_of results.now }
    {
        let mut counts = Counts::default();
        for script in results {
            counts.add_all(script.items.items());
        }
        counts
    }

    /// Counts these results too.
    fn add_all(&mut self, steps: &[StepResult])
        requires { (kind : Kind) → count_of self.old kind + length steps.now < 2 ^ 128 }
        ensures { (kind : Kind) → count_of self.new kind
            ≡ count_of self.old kind + count_by (λ step. is_of kind step) steps.now }
    {
        for step in steps {
            self.add(kind_of(step));
        }
    }

    /// Counts one more of this kind.
    fn add(&mut self, kind: Kind)
        requires { count_of self.old kind + 1 < 2 ^ 128 }
        ensures { self.new ≡ with_one_more self.old kind }
    {
        match kind {
            Kind::Given => self.given += 1,
            Kind::Written => self.written += 1,
            Kind::Size => self.size += 1,
            Kind::Bytes => self.bytes += 1,
            Kind::Freed => self.freed += 1,
            Kind::Skipped => self.skipped += 1,
            Kind::Other => self.other += 1,
        }
    }
}

fn kind_of(step: &StepResult) -> Kind
    ensures { result ≡ kind_of step.now }
{
    match &step.answer {
        Some(Answer::Reply(reply)) => reply_kind(reply),
        Some(_) => Kind::Other,
        None => Kind::Skipped,
    }
}

fn reply_kind(reply: &Reply) -> Kind
    ensures { result ≡ reply_kind reply.now }
{
    match reply {
        Reply::Given { .. } => Kind::Given,
        Reply::Filled => Kind::Written,
        Reply::Usable(_) => Kind::Size,
        Reply::Bytes(_) => Kind::Bytes,
        Reply::Freed => Kind::Freed,
        _ => Kind::Other,
    }
}
