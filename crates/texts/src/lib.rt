//! The text of a phase in the answer to RS, which SP takes back.
#![tactic(auto)]

mod laws;
mod phase_text;

pub use laws::read_back_laws;
pub use phase_text::answer_rs;
