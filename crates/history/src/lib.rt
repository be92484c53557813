//! Histories of a module: calls, their answers, and the law that every history keeps; and a module with its memory, to which lines are
//! sent and for which time passes.
#![tactic(auto)]

mod answer;
mod calls;
mod host;
mod play;

pub use answer::{Answer, Reply};
pub use host::Host;
pub use law::{Action, Call};
pub use lines::Character;
pub use play::history;
