//! The results of the scripts of a replay, step by step.
use hm_base::List;
use hm_model::Answer;

/// The result of a step. No answer is that of a skipped step. `base` is the address that the step
/// referred to, else 0.
#[derive(Debug, Drop)]
pub struct StepResult {
    pub base: u64,
    pub answer: Option<Answer>,
}

/// The results of a script, in the order of its steps. Rounds count from 1.
#[derive(Debug, Drop)]
pub struct Results {
    pub round: u32,
    pub thread: u32,
    pub items: List<StepResult>,
}
