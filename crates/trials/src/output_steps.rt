//! Examples of each output.
use outputs::{
    Answer, DryRunOutput, FullStepCoils, HalfStepCoils, LineOutput, NoRoom, PulseOutput, Request,
    StepOutput, play_both,
};
use std::process::Abort;
use steps::Direction;

// The lines at each place of a cycle, and at the place after it.
fn check_cycle<O: LineOutput>(rt: &impl Abort, output: &mut O, patterns: &[u8]) {
    output.set_power(true);
    for pattern in patterns {
        assert_eq!(rt; output.lines(), *pattern);
        assert!(rt; output.step(Direction::Forward));
    }
    assert_eq!(rt; output.lines(), 5);
}

#[test]
fn full_step_cycle(rt: HostRuntime) {
    check_cycle(&rt, &mut FullStepCoils::new(), &[5, 6, 10, 9]);
}

#[test]
fn half_step_cycle(rt: HostRuntime) {
    check_cycle(&rt, &mut HalfStepCoils::new(), &[5, 4, 6, 2, 10, 8, 9, 1]);
}

#[test]
fn refused_without_power(rt: HostRuntime) {
    let mut coils = HalfStepCoils::new();
    assert_eq!(rt; coils.step(Direction::Forward), false);
    assert_eq!(rt; coils.place(), 0);
    assert_eq!(rt; coils.lines(), 0);
}

#[test]
fn back_from_place_0(rt: HostRuntime) {
    let mut coils = FullStepCoils::new();
    coils.set_power(true);
    assert!(rt; coils.step(Direction::Back));
    assert_eq!(rt; coils.place(), 16_777_215);
}

#[test]
fn pulse_counts(rt: HostRuntime) {
    let mut output = PulseOutput::new();
    output.set_power(true);
    assert!(rt; output.step(Direction::Back));
    assert!(rt; output.step(Direction::Back));
    assert!(rt; output.step(Direction::Forward));
    assert_eq!(rt; output.forward(), 1);
    assert_eq!(rt; output.back(), 2);
    assert_eq!(rt; output.place(), 16_777_215);
}

// At the upper end the number goes on at the lower one, and the other way round; the place goes on by one.
#[test]
fn number_goes_round(rt: HostRuntime) {
    let mut output = DryRunOutput::new();
    output.set_power(true);
    for _ in 0..8_388_607 {
        assert!(rt; output.step(Direction::Forward));
    }
    assert_eq!(rt; output.number(), 8_388_607);
    assert_eq!(rt; output.place(), 8_388_607);
    assert!(rt; output.step(Direction::Forward));
    assert_eq!(rt; output.number(), -8_388_608);
    assert_eq!(rt; output.place(), 8_388_608);
    assert!(rt; output.step(Direction::Back));
    assert_eq!(rt; output.number(), 8_388_607);
}

#[test]
fn number_below_0(rt: HostRuntime) {
    let mut output = DryRunOutput::new();
    output.set_power(true);
    assert!(rt; output.step(Direction::Back));
    assert_eq!(rt; output.number(), -1);
    assert_eq!(rt; output.place(), 16_777_215);
}

#[test]
fn dry_run_refused_without_power(rt: HostRuntime) {
    let mut output = DryRunOutput::new();
    assert_eq!(rt; output.step(Direction::Back), false);
    assert_eq!(rt; output.number(), 0);
    assert_eq!(rt; output.place(), 0);
    assert_eq!(rt; output.power(), false);
}

// A pulse output at place 0 with power off, which has sent a pulse forward and a pulse back.
fn returned_to_0() -> PulseOutput {
    let mut output = PulseOutput::new();
    output.set_power(true);
    output.step(Direction::Forward);
    output.step(Direction::Back);
    output.set_power(false);
    output
}

// Without power the first step is refused; with power there are one step back and two forward; the last step is refused again.
#[test]
fn requests_on_both(rt: HostRuntime) {
    let requests = [
        Request::Step(Direction::Forward),
        Request::SetPower(true),
        Request::Step(Direction::Back),
        Request::Place,
        Request::Power,
        Request::Cycle,
        Request::Step(Direction::Forward),
        Request::Step(Direction::Forward),
        Request::SetPower(false),
        Request::Step(Direction::Back),
        Request::Power,
        Request::Place,
    ];
    let answers = [
        Answer::Made(false),
        Answer::Switched,
        Answer::Made(true),
        Answer::Place(16_777_215),
        Answer::Power(true),
        Answer::Cycle(1),
        Answer::Made(true),
        Answer::Made(true),
        Answer::Switched,
        Answer::Made(false),
        Answer::Power(false),
        Answer::Place(1),
    ];
    let mut dry = DryRunOutput::new();
    let mut pulse = returned_to_0();
    let mut dry_room = [Answer::Cycle(0); 13];
    let mut pulse_room = [Answer::Cycle(0); 12];
    let played = play_both(
        &mut dry,
        &mut pulse,
        &requests,
        &mut dry_room,
        &mut pulse_room,
    );
    assert_eq!(rt; played, Ok(()));
    assert_eq!(rt; &dry_room[..12], answers.as_slice());
    assert_eq!(rt; dry_room[12], Answer::Cycle(0));
    assert_eq!(rt; pulse_room.as_slice(), answers.as_slice());
    assert_eq!(rt; dry.number(), 1);
    assert_eq!(rt; (pulse.forward(), pulse.back()), (3, 2));
}

// Two requests, and room for one answer at the second output: both outputs and their rooms stay as they were.
#[test]
fn requests_without_room(rt: HostRuntime) {
    let requests = [Request::SetPower(true), Request::Step(Direction::Forward)];
    let mut dry = DryRunOutput::new();
    let mut pulse = PulseOutput::new();
    let mut dry_room = [Answer::Cycle(0); 2];
    let mut pulse_room = [Answer::Cycle(0); 1];
    let played = play_both(
        &mut dry,
        &mut pulse,
        &requests,
        &mut dry_room,
        &mut pulse_room,
    );
    assert_eq!(rt; played, Err(NoRoom));
    assert_eq!(rt; dry.power(), false);
    assert_eq!(rt; pulse.power(), false);
    assert_eq!(rt; dry_room, [Answer::Cycle(0); 2]);
    assert_eq!(rt; pulse_room, [Answer::Cycle(0); 1]);
}
