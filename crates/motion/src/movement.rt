//! A movement that goes on.
ghost use Rattle.std.specs.Prelude.{◌+◌, ◌^◌, ◌<◌, ◌≤◌};

use steps::Direction;

mod starts;
mod stops;
mod ticks;

/// A movement of at least one step that goes on, tick by tick.
#[derive(Clone, Copy)]
pub struct Movement {
    direction: Direction,
    // r, the steps left
    left: u32,
    // k, how many ticks up the slope it is
    ramp: u32,
    // u, the steps made while the speed rose
    up: u32,
    // a: each tick adds the speed to it, each step takes 40,000 from it
    accumulated: u32,
    // VN and P, in steps per second
    start: u16,
    plateau: u16,
    // K, the ticks of the whole slope
    top: u32,
    // NV: at VN throughout
    constant: bool,
    // GE was given
    stopping: bool,
    ghost goes: { 1 ≤ left },
    ghost room: { up + left < 2 ^ 32 },
    ghost below: { accumulated < 40000 },
    ghost ramps: { ramp ≤ top },
    ghost shortest: { 1 ≤ top },
    ghost longest: { top ≤ 2600000 },
    ghost least: { 20 ≤ start },
    ghost order: { start ≤ plateau },
    ghost most: { plateau ≤ 20000 },
}
