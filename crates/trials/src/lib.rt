//! Tests: movements, runs, outputs, the axis and the texts of answers, the proof sheet on short files, how a run is told, and what the
//! arguments of the programs ask for.
#![tactic(auto)]

#[cfg(test)]
mod answer_texts;
#[cfg(test)]
mod arguments;
#[cfg(test)]
mod axis_steps;
#[cfg(test)]
mod movement_ticks;
#[cfg(test)]
mod output_steps;
#[cfg(test)]
mod proof_sheets;
#[cfg(test)]
mod report_texts;
#[cfg(test)]
mod sequence_runs;
