//! Scripts of calls read, played on modules, and their transcripts written.
#![tactic(auto)]

mod end_block;
mod error;
mod expected;
mod fault_text;
mod line_error;
mod numbers;
mod order;
mod playback;
mod playing;
mod reading;
mod script;
mod section;
mod snapshot;
mod step;
mod transcript;

pub use error::ScriptError;
pub use expected::Expected;
pub use numbers::{read_decimal, read_hexadecimal};
pub use reading::read_line;
pub use script::transcribe;
pub use step::Step;
pub use transcript::Transcript;
