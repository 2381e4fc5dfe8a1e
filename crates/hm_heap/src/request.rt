//! A call of a region before it is made, whose bytes are borrowed.
use hm_base::RegionId;
use hm_model::{Runs, Who};

/// What is asked of a region.
#[derive(Clone, Copy, Debug, Drop)]
pub(crate) enum Request<'a> {
    Allot { asked: u64, align: u64 },
    GiveBack { addr: u64, stated: Option<u64> },
    Measure { addr: u64 },
    Fetch { addr: u64, len: u64 },
    Fill { addr: u64, runs: &'a Runs },
}

/// One part of a call of a heap: the step of the call, the number of the part, and what is asked of a region.
#[derive(Clone, Copy, Drop)]
pub(crate) struct StepPart<'a> {
    pub(crate) step: u32,
    pub(crate) number: u8,
    pub(crate) request: Request<'a>,
}

/// A call of a region: which region is asked, by whom and for what.
#[derive(Clone, Copy, Drop)]
pub(crate) struct RegionCall<'a> {
    pub(crate) region: RegionId,
    pub(crate) who: Who,
    pub(crate) request: Request<'a>,
}
