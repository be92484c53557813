//! Runs with the parameters of a new module.
use engine::{Run, Surroundings};
use motion::Parameters;
use phases::{Inputs, Link, Nature, Phase, Position};
use store::{Block, Directory};

const POWER_ON: Phase = Phase {
    written: true,
    nature: Nature::PowerOn,
    ..Phase::BLANK
};

const WAIT: Phase = Phase {
    written: true,
    nature: Nature::Wait,
    set_point: 1,
    ..Phase::BLANK
};

const STEP: Phase = Phase {
    written: true,
    set_point: 1,
    ..Phase::BLANK
};

// A sequence of these phases.
fn store_sequence(
    records: &mut [Phase; 414],
    directory: &mut Directory,
    sequence: u8,
    phases: &[Phase],
) {
    let reserve = u8::try_from(phases.len()).unwrap_or(0);
    let block = Block {
        number: sequence,
        reserve,
    };
    if let Ok(()) = directory.check_create(block) {
        directory.create(records, block);
    }
    for (phase, number) in phases.iter().zip(1..=reserve) {
        let at = Position {
            sequence,
            phase: number,
        };
        if let Ok(index) = directory.locate(at) {
            records[index] = *phase;
        }
    }
}

// The tick in which the run of sequence 1 ends; 0 if none of 200 does. Sequence 1 is of these phases, and sequence 2 a wait of 1 ms.
fn end(phases: &[Phase], levels: u8) -> u32 {
    let mut records = [Phase::BLANK; 414];
    let mut directory = Directory::new();
    store_sequence(&mut records, &mut directory, 1, phases);
    store_sequence(&mut records, &mut directory, 2, &[WAIT]);
    let mut run = Some(Run::new(1));
    for tick in 1..201 {
        let Some(going) = run else { break };
        let outcome = going.tick(&Surroundings {
            records: &records,
            directory: &directory,
            counter: 0,
            levels,
            parameters: Parameters::initial(),
        });
        run = outcome.rest;
        if run.is_none() {
            return tick;
        }
    }
    0
}

// Entered in ticks 1, 82 and 123: the step is made 80 ticks after the first, and the wait takes 40. Phase 4 is past the reserve.
#[test]
fn step_wait_and_power(rt: HostRuntime) {
    assert_eq!(rt; end(&[STEP, WAIT, POWER_ON], 0), 124);
}

// Linked in tick 1, waiting to tick 42; where NE does not agree, phase 2 comes in tick 2.
#[test]
fn link_by_ne(rt: HostRuntime) {
    let phase = Phase {
        link: Some(Link::Sequence(2)),
        inputs: Inputs {
            named: 1,
            levels: 1,
        },
        ..POWER_ON
    };
    assert_eq!(rt; (end(&[phase], 1), end(&[phase], 0)), (43, 2));
}

// The sub-sequence returns in tick 43, to phase 2 in tick 44 or to the end of the run.
#[test]
fn return_from_sub_sequence(rt: HostRuntime) {
    let phase = Phase {
        link: Some(Link::SubSequence(2)),
        ..POWER_ON
    };
    let last = Phase {
        next: Some(54),
        ..phase
    };
    assert_eq!(rt; (end(&[phase], 0), end(&[last], 0)), (44, 43));
}
