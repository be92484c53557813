//! Movements tick by tick: their parameters, one tick, the slow stop, and what holds of whole movements.
#![tactic(auto)]

mod distance;
mod laws;
mod movement;
mod parameters;
mod settings;
mod slope;
mod speed;

pub use distance::Distance;
pub use laws::movement_laws;
pub use movement::Movement;
pub use parameters::Parameters;
pub use settings::Settings;
pub use slope::Slope;
pub use speed::Speed;
