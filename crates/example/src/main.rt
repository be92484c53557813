//! A module over a pulse output makes a movement of two steps.
#![tactic(auto)]

use lines::Character;
use module::Module;
use outputs::PulseOutput;
use phases::Phase;
use std::io;

// What a reply to a command means.
fn meaning(reply: &[u8]) -> &'static str {
    match reply {
        [0x06, 0x11] => "accepted",
        [0x15, 0x11] => "refused",
        _ => "another reply",
    }
}

fn main(rt: HostRuntime) -> io::Result<()> {
    let mut memory = [Phase::BLANK; 414];
    let mut reply = [0; 80];
    let mut module = Module::new(PulseOutput::new());
    module.set_address(7).unwrap();
    for byte in b"07DR 2\r07VX 20000\r07VN 20000\r07GO\r" {
        let character = Character {
            byte: *byte,
            damaged: false,
        };
        match module.character(character, &mut memory, &mut reply) {
            Ok(0) => {}
            Ok(length) => println!(rt; "{}", meaning(&reply[..length]))?,
            Err(fault) => println!(rt; "not taken: {}", fault.cause.number())?,
        }
    }
    for tick in 1..=4 {
        let (step, busy) = module.tick(&memory).unwrap();
        println!(rt; "tick {tick}: step {step}, busy {busy}")?;
    }
    println!(rt; "counter {}", module.axis().counter())
}
