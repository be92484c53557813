//! Movements run tick by tick.
use motion::{Distance, Movement, Parameters, Speed};
use std::test::Fail;
use steps::Direction;

// The numbers of the first and the last tick that steps, of a hundred ticks; 0 if none does.
fn first_and_last(mut movement: Option<Movement>) -> (u32, u32) {
    let mut first = 0;
    let mut last = 0;
    for tick in 1..101 {
        let Some(going) = movement else { break };
        let (step, rest) = going.tick();
        movement = rest;
        if step.is_some() {
            last = tick;
            if first == 0 {
                first = tick;
            }
        }
    }
    (first, last)
}

#[test]
fn one_step_of_a_new_module(rt: HostRuntime) {
    let distance = Distance {
        direction: Direction::Forward,
        steps: 1,
    };
    let movement = Movement::new(Parameters::initial(), None, distance, false);
    assert_eq!(rt; first_and_last(movement), (80, 80));
}

#[test]
fn two_steps_at_the_highest_speed(rt: HostRuntime) -> Result<(), Fail> {
    let Some(speed) = Speed::new(20_000) else {
        return Err(Fail::new("within the limits"));
    };
    let parameters = Parameters::initial()
        .with_plateau_speed(speed)
        .with_start_speed(speed);
    let distance = Distance {
        direction: Direction::Back,
        steps: 2,
    };
    let movement = Movement::new(parameters, None, distance, false);
    assert_eq!(rt; first_and_last(movement), (2, 4));
    Ok(())
}

#[test]
fn slow_stop_before_the_first_tick(rt: HostRuntime) -> Result<(), Fail> {
    let distance = Distance {
        direction: Direction::Forward,
        steps: 9,
    };
    match Movement::new(Parameters::initial(), None, distance, false) {
        Some(movement) => {
            assert!(rt; movement.stop().is_none());
            Ok(())
        },
        None => Err(Fail::new("nine steps")),
    }
}
