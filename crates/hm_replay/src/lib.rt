//! Scripts on a heap, each in a thread of its own, round by round.
#![tactic(auto)]

mod addresses;
mod calls;
mod env;
mod laws;
mod left;
mod naming;
mod places;
mod rooms;
mod round;
mod scope;
mod script;
mod setting;

pub use env::Env;
pub use hm_report::{Results, StepResult};
pub use laws::{replayed_rounds, small_rounds, watched_rounds};
pub use round::run_round;
pub use script::run_script;
pub use setting::Setting;
