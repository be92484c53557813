//! One tick of what goes on.
ghost use Rattle.std.specs.Prelude.{◌≡◌};
ghost use Rattle.engine.specs.Progress.{progress};
ghost use Rattle.control.specs.States.{state, activity_of, goes_on};
ghost use Rattle.control.specs.Ticks.{run_outcome, run_ticked, tick_effects, ticked};

use crate::activity::Activity;
use crate::control::Control;
use engine::{Effects, Outcome, Run, Surroundings};
use phases::Phase;

impl Control {
    // What is left goes on; without it the module is at rest, with the outputs at FFh.
    pub(crate) fn go_on(&mut self, rest: Option<Activity>)
        ensures { state self.new ≡ goes_on (state self.old) (activity_of rest) }
    {
        self.activity = rest;
        if rest.is_none() {
            self.outputs = 0xFF;
        }
    }

    // One tick of a run: the outputs that it sets, and the run that is left.
    fn run_tick(&mut self, run: Run, records: &[Phase], counter: i32) -> Effects
        ensures effects { result ≡ (run_outcome (state self.old) records.now counter (progress run)).effects }
        ensures state { state self.new ≡ run_ticked (state self.old) (run_outcome (state self.old) records.now counter (progress run)) }
    {
        let Outcome { effects, rest } = run.tick(&Surroundings {
            records,
            directory: &self.directory,
            counter,
            levels: self.levels,
            parameters: self.settings.parameters,
        });
        self.outputs = effects.outputs.unwrap_or(self.outputs);
        match rest {
            Some(run) => self.go_on(Some(Activity::Running(run))),
            None => self.go_on(None),
        }
        effects
    }

    /// One tick of 1/40,000 s: what it does outside, and the fault that ends a run.
    pub fn tick(&mut self, records: &[Phase], counter: i32) -> Effects
        ensures effects { result ≡ tick_effects (state self.old) records.now counter (state self.old).activity }
        ensures state { state self.new ≡ ticked (state self.old) records.now counter (state self.old).activity }
    {
        match self.activity {
            None => Effects::default(),
            Some(Activity::Moving(movement)) => {
                let (step, rest) = movement.tick();
                self.go_on(rest.map(Activity::Moving));
                Effects {
                    step,
                    ..Effects::default()
                }
            }
            Some(Activity::Running(run)) => self.run_tick(run, records, counter),
        }
    }
}
