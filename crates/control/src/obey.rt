//! What an accepted order does.
ghost use Rattle.std.specs.Prelude.{◌≡◌, ◌<◌, Some, Ok, length, slice_set};
ghost use Rattle.engine.specs.Ticks.{started};
ghost use Rattle.motion.specs.Values.{values};
ghost use Rattle.steps.specs.declared.power.Power.TheVariants.{On, Off};
ghost use Rattle.store.specs.Blocks.{reserved};
ghost use Rattle.store.specs.Records.{appended, blanked, create_answer, erased_records};
ghost use Rattle.orders.specs.Judged.{Shown};
ghost use Rattle.control.specs.States.{state, store_of, situation, activity_of, running, with_settings, with_values, with_activity};
ghost use Rattle.control.specs.Obeyed.{accepted, power_set, moves_to, slowed, cut_off, restarted, choice_without, erased, obeyed, restart_change};

use crate::activity::Activity;
use crate::change::{Answer, Change};
use crate::control::Control;
use engine::Run;
use motion::{Distance, Movement, Parameters, Settings};
use orders::Order;
use phases::Phase;
use steps::{Direction, Power};
use store::Block;

// Erasing the chosen sequence, or all of them, drops the choice.
fn choice_without(chosen: Option<u8>, erased: Option<u8>) -> Option<u8>
    ensures { result ≡ choice_without erased chosen }
{
    let number = erased?;
    chosen.filter(|choice| *choice != number)
}

// A sequence that starts.
fn started(number: u8) -> Activity
    ensures { activity_of (Some result) ≡ running (started number) }
{
    Activity::Running(Run::new(number))
}

fn write(records: &mut [Phase], index: usize, phase: Phase) -> Change
    requires { index < length records.old }
    ensures change { result ≡ accepted }
    ensures records { records.new ≡ slice_set records.old index phase }
{
    records[index] = phase;
    Change::accepted()
}

impl Control {
    fn set_parameters(&mut self, parameters: Parameters) -> Change
        ensures change { result ≡ accepted }
        ensures state { state self.new ≡ with_values (state self.old) (values parameters) }
    {
        self.settings.parameters = parameters;
        Change::accepted()
    }

    fn set_distance(&mut self, steps: u32) -> Change
        ensures change { result ≡ accepted }
        ensures state { state self.new ≡ with_settings (state self.old) (record (state self.old).settings { distance = steps }) }
    {
        self.settings.distance = steps;
        Change::accepted()
    }

    fn set_direction(&mut self, direction: Direction) -> Change
        ensures change { result ≡ accepted }
        ensures state { state self.new ≡ with_settings (state self.old) (record (state self.old).settings { direction = direction }) }
    {
        self.settings.direction = direction;
        Change::accepted()
    }

    fn set_outputs(&mut self, outputs: u8) -> Change
        ensures change { result ≡ accepted }
        ensures state { state self.new ≡ record (state self.old) { outputs = outputs } }
    {
        self.outputs = outputs;
        Change::accepted()
    }

    // Starts a direct movement; one of zero steps has ended at once.
    fn start_movement(&mut self, distance: Distance) -> Change
        ensures change { result ≡ power_set On }
        ensures state { state self.new ≡ moves_to (state self.old) distance }
    {
        let movement = Movement::new(self.settings.parameters, None, distance, false);
        self.go_on(movement.map(Activity::Moving));
        Change::power(Power::On)
    }

    fn slow_stop(&mut self) -> Change
        ensures change { result ≡ accepted }
        ensures state { state self.new ≡ slowed (state self.old) (state self.old).activity }
    {
        match self.activity {
            None => {}
            Some(Activity::Moving(movement)) => self.go_on(movement.stop().map(Activity::Moving)),
            Some(Activity::Running(run)) => self.go_on(run.stop().map(Activity::Running)),
        }
        Change::accepted()
    }

    // GR ends what goes on.
    fn power_off(&mut self) -> Change
        ensures change { result ≡ power_set Off }
        ensures state { state self.new ≡ cut_off (state self.old) (state self.old).activity }
    {
        if self.activity.is_some() {
            self.go_on(None);
        }
        Change::power(Power::Off)
    }

    fn create(&mut self, block: Block, records: &mut [Phase]) -> Change
        requires length { length records.old ≡ 414 }
        requires accepted { create_answer (state self.old).blocks block.number block.reserve ≡ Ok tt }
        ensures change { result ≡ accepted }
        ensures state { state self.new ≡ record (state self.old) { blocks = appended (state self.old).blocks block.number block.reserve } }
        ensures records { records.new ≡ blanked (reserved (state self.old).blocks) block.reserve records.old }
    {
        self.directory.create(records, block);
        Change::accepted()
    }

    fn erase(&mut self, sequence: Option<u8>, records: &mut [Phase]) -> Change
        requires { length records.old ≡ 414 }
        ensures change { result ≡ accepted }
        ensures state { state self.new ≡ erased (state self.old) sequence }
        ensures records { records.new ≡ erased_records (state self.old).blocks sequence records.old }
    {
        self.directory.erase(records, sequence);
        self.chosen = choice_without(self.chosen, sequence);
        Change::accepted()
    }

    fn choose(&mut self, number: u8) -> Change
        ensures change { result ≡ accepted }
        ensures state { state self.new ≡ record (state self.old) { chosen = Some number } }
    {
        self.chosen = Some(number);
        Change::accepted()
    }

    fn start(&mut self, number: u8) -> Change
        ensures change { result ≡ power_set On }
        ensures state { state self.new ≡ with_activity (state self.old) (running (started number)) }
    {
        self.activity = Some(started(number));
        Change::power(Power::On)
    }

    /// Power-up and MR: all stops, and the chosen sequence starts.
    pub fn restart(&mut self) -> Change
        ensures change { result ≡ restart_change (state self.old).chosen }
        ensures state { state self.new ≡ restarted (state self.old) (state self.old).chosen }
    {
        self.outputs = 0xFF;
        self.activity = self.chosen.map(started);
        Change::restart(self.chosen)
    }

    /// Does what an accepted order says, and answers what it does outside. The counter is the one before the order.
    pub fn obey(&mut self, order: Order, records: &mut [Phase], counter: i32) -> Change
        requires length { length records.old ≡ 414 }
        requires shown { Shown (situation (state self.old)) (store_of (state self.old) records.old) order }
        ensures change { result ≡ (obeyed (state self.old) records.old counter order).change }
        ensures state { state self.new ≡ (obeyed (state self.old) records.old counter order).state }
        ensures records { records.new ≡ (obeyed (state self.old) records.old counter order).records }
    {
        let Settings {
            parameters,
            distance: steps,
            direction,
        } = self.settings;
        match order {
            Order::StartSpeed(speed) => self.set_parameters(parameters.with_start_speed(speed)),
            Order::PlateauSpeed(speed) => self.set_parameters(parameters.with_plateau_speed(speed)),
            Order::Slope(slope) => self.set_parameters(parameters.with_slope(slope)),
            Order::Distance(steps) => self.set_distance(steps),
            Order::Forward => self.set_direction(Direction::Forward),
            Order::Back => self.set_direction(Direction::Back),
            Order::ZeroCounter => Change::counter(0),
            Order::SetCounter(value) => Change::counter(value),
            Order::Move => self.start_movement(Distance { direction, steps }),
            Order::MoveToOrigin => self.start_movement(Distance::to(0, counter)),
            Order::MoveTo(goal) => self.start_movement(Distance::to(goal, counter)),
            Order::SlowStop => self.slow_stop(),
            Order::PowerOn => Change::power(Power::On),
            Order::PowerOff => self.power_off(),
            Order::SetOutputs(outputs) => self.set_outputs(outputs),
            Order::Create(block) => self.create(block, records),
            Order::Erase(sequence) => self.erase(sequence, records),
            Order::Choose(number) => self.choose(number),
            Order::Start(number) => self.start(number),
            Order::Write { index, phase } => write(records, index, phase),
            Order::ReadPhase { at, record } => Change::answer(Answer::Phase { at, record }),
            Order::Restart => self.restart(),
            Order::ReadParameters => Change::answer(Answer::Parameters),
            Order::ReadPosition => Change::answer(Answer::Position),
            Order::ReadVersion => Change::answer(Answer::Version),
            Order::ReadFault => Change::fault(),
        }
    }
}
