//! The state of a module but for its line, its fault record and its axis.
ghost use Rattle.std.specs.Prelude.{◌≡◌, Some, length};
ghost use Rattle.lines.specs.Lines.{kept};
ghost use Rattle.orders.specs.Judged.{judged, Admitted};
ghost use Rattle.control.specs.States.{state, store_of, initial, is_busy, upcoming_in, open_in, situation};

use crate::activity::Activity;
use lines::Line;
use motion::Settings;
use orders::{Judgement, Situation, judge};
use phases::{Phase, Position};
use store::{Directory, Store};

/// What a module is set to, the sequences that it has, and what goes on.
#[derive(Clone, Copy)]
pub struct Control {
    /// VN, VX, TR, DR, D+ and D-.
    pub settings: Settings,
    /// 0 to 63.
    pub address: u8,
    /// The levels of the inputs, one bit for each, input 1 as bit 0.
    pub levels: u8,
    /// The outputs, one bit for each.
    pub outputs: u8,
    /// The sequence that SD has chosen.
    pub chosen: Option<u8>,
    /// The sequences in order of creation.
    pub directory: Directory,
    /// What goes on; none at rest.
    pub activity: Option<Activity>,
}

impl Control {
    /// The state of a new module.
    pub fn new() -> Control
        ensures { state result ≡ initial }
    {
        Control {
            settings: Settings::initial(),
            address: 0,
            levels: 0,
            outputs: 0xFF,
            chosen: None,
            directory: Directory::new(),
            activity: None,
        }
    }

    /// Whether a movement or a sequence runs.
    pub fn busy(&self) -> bool
        ensures { result ≡ is_busy (state self.now).activity }
    {
        self.activity.is_some()
    }

    /// The phase that the next tick enters; none where no sequence runs, or while a phase goes on.
    pub fn upcoming(&self) -> Option<Position>
        ensures { result ≡ upcoming_in (state self.now).activity }
    {
        match &self.activity {
            Some(Activity::Running(run)) => run.upcoming(),
            Some(Activity::Moving(_)) | None => None,
        }
    }

    /// How many sub-sequences of a run are open; 0 where no sequence runs.
    pub fn open_sub_sequences(&self) -> usize
        ensures { result ≡ open_in (state self.now).activity }
    {
        match &self.activity {
            Some(Activity::Running(run)) => run.open_sub_sequences(),
            Some(Activity::Moving(_)) | None => 0,
        }
    }

    fn situation(&self) -> Situation
        ensures { result ≡ situation (state self.now) }
    {
        Situation {
            address: self.address,
            busy: self.busy(),
            start_speed: self.settings.parameters.start_speed(),
            plateau_speed: self.settings.parameters.plateau_speed(),
        }
    }

    /// Whom a line is for, and its order, or why it is refused, over the 414 records of the phase memory.
    pub fn judge(&self, line: &Line, records: &[Phase]) -> Judgement
        requires { length records.now ≡ 414 }
        ensures judged { result ≡ judged (situation (state self.now)) (store_of (state self.now) records.now) (kept line.now) }
        ensures admitted { Admitted (situation (state self.now)) (store_of (state self.now) records.now) result }
    {
        let store = Store {
            directory: &self.directory,
            records,
        };
        judge(line, self.situation(), &store)
    }

    /// Sets the address, 0 to 63.
    pub fn set_address(&mut self, address: u8)
        ensures { state self.new ≡ record (state self.old) { address = address } }
    {
        self.address = address;
    }

    /// Sets the levels of the inputs, one bit for each.
    pub fn set_levels(&mut self, levels: u8)
        ensures { state self.new ≡ record (state self.old) { levels = levels } }
    {
        self.levels = levels;
    }
}
