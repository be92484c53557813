//! Step outputs: what every output does, the coils of a motor in full and in half steps, counted pulses, and a dry run that moves nothing.
#![tactic(auto)]

pub mod drive;
pub mod dry_run;
pub mod full_step;
pub mod half_step;
pub mod line_output;
pub mod motor_coils;
pub mod playing;
pub mod pulse;
pub mod request;
pub mod step_output;

pub use drive::Drive;
pub use dry_run::DryRunOutput;
pub use full_step::{FullStep, FullStepCoils};
pub use half_step::{HalfStep, HalfStepCoils};
pub use line_output::LineOutput;
pub use motor_coils::MotorCoils;
pub use playing::{NoRoom, play, play_both};
pub use pulse::PulseOutput;
pub use request::{Answer, Request};
pub use step_output::StepOutput;
