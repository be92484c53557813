//! The run of a sequence, tick by tick: it reads the phases, the counter and the levels, and answers what is to be done.
#![tactic(auto)]

mod distance;
mod effects;
mod fault;
mod laws;
mod outcome;
mod position;
mod returns;
mod run;
mod surroundings;

pub use effects::Effects;
pub use laws::run_laws;
pub use outcome::Outcome;
pub use run::Run;
pub use surroundings::Surroundings;
