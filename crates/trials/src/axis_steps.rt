//! Examples of an axis over each sort of output.
use axis::Axis;
use outputs::{HalfStepCoils, LineOutput, PulseOutput, StepOutput};
use steps::Direction;

#[test]
fn refused_step_counts_nothing(rt: HostRuntime) {
    let mut axis = Axis::new(PulseOutput::new());
    axis.set_counter(-3);
    assert_eq!(rt; axis.step(Direction::Forward), false);
    assert_eq!(rt; axis.counter(), -3);
    assert_eq!(rt; axis.place(), 0);
}

#[test]
fn counter_wraps_both_ways(rt: HostRuntime) {
    let mut axis = Axis::new(PulseOutput::new());
    axis.set_power(true);
    axis.set_counter(8_388_607);
    assert!(rt; axis.step(Direction::Forward));
    assert_eq!(rt; axis.counter(), -8_388_608);
    assert!(rt; axis.step(Direction::Back));
    assert_eq!(rt; axis.counter(), 8_388_607);
    assert_eq!(rt; axis.output().back(), 1);
}

#[test]
fn coils_follow_the_counter(rt: HostRuntime) {
    let mut axis = Axis::new(HalfStepCoils::new());
    axis.set_power(true);
    assert!(rt; axis.step(Direction::Back));
    assert_eq!(rt; axis.counter(), -1);
    assert_eq!(rt; axis.place(), 16_777_215);
    assert_eq!(rt; axis.output().lines(), 1);
}
