//! The rows values and store: each number of a command within its limits, then what it names in the phase memory.
ghost use Rattle.std.specs.Prelude.{◌≡◌, length, OnOk};
ghost use Rattle.store.specs.Directories.{sequences};
ghost use Rattle.store.specs.Stores.{store as stored};
ghost use Rattle.orders.specs.Values.{speed as speed_of, start_speed, plateau_speed, in_order, slope as slope_of, distance as distance_of, position as position_of, outputs as outputs_of, existing as existing_of, creatable, writing, reading, order_of};

use crate::command::Command;
use crate::order::{Order, Situation};
use faults::Fault;
use fields::{
    RawPhase, RawPosition, block_values, erase_value, position_values, sequence_value, sp_values,
    within,
};
use motion::{Slope, Speed};
use store::{Block, Directory, Store};

fn speed(n: u64) -> Result<Speed, Fault>
    ensures { result ≡ speed_of n }
{
    Speed::new(n).ok_or(Fault::past_limit(2))
}

// The start speed is at most the plateau speed.
fn in_order(start: u16, plateau: u16) -> Result<(), Fault>
    ensures { result ≡ in_order start plateau }
{
    if start > plateau {
        return Err(Fault::start_past_plateau());
    }
    Ok(())
}

fn start_speed(n: u64, plateau: u16) -> Result<Speed, Fault>
    ensures { result ≡ start_speed plateau n }
{
    let start = speed(n)?;
    in_order(start.per_second(), plateau)?;
    Ok(start)
}

fn plateau_speed(n: u64, start: u16) -> Result<Speed, Fault>
    ensures { result ≡ plateau_speed start n }
{
    let plateau = speed(n)?;
    in_order(start, plateau.per_second())?;
    Ok(plateau)
}

fn slope(n: u64) -> Result<Slope, Fault>
    ensures { result ≡ slope_of n }
{
    Slope::new(n).ok_or(Fault::past_limit(2))
}

fn distance(n: u64) -> Result<u32, Fault>
    ensures { result ≡ distance_of n }
{
    within(0, 999_998, Fault::past_limit(2), n)
}

// A position that the counter can be set to, or moved to.
fn position(n: i64) -> Result<i32, Fault>
    ensures { result ≡ position_of n }
{
    match i32::try_from(n) {
        Ok(n) if (-8_388_606..=8_388_606).contains(&n) => Ok(n),
        _ => Err(Fault::past_limit(2)),
    }
}

fn outputs(n: u64) -> Result<u8, Fault>
    ensures { result ≡ outputs_of n }
{
    within(0, 255, Fault::past_limit(2), n)
}

// A sequence that exists.
fn existing(n: u64, directory: &Directory) -> Result<u8, Fault>
    ensures { result ≡ existing_of (sequences directory.now) n }
{
    let number = sequence_value(n)?;
    directory.find(number).ok_or(Fault::no_sequence())?;
    Ok(number)
}

// A sequence that can be created.
fn creatable(raw: RawPosition, directory: &Directory) -> Result<Block, Fault>
    ensures { result ≡ creatable (sequences directory.now) raw }
{
    let block = block_values(raw)?;
    directory.check_create(block)?;
    Ok(block)
}

// A phase to write, and where.
fn writing(raw: RawPhase, directory: &Directory) -> Result<Order, Fault>
    ensures { result ≡ writing (sequences directory.now) raw }
{
    let (at, phase) = sp_values(raw)?;
    let index = directory.locate(at)?;
    Ok(Order::Write { index, phase })
}

// A phase to read, and its record.
fn reading(raw: RawPosition, store: &Store) -> Result<Order, Fault>
    requires { length store.now.records.now ≡ 414 }
    ensures { result ≡ reading (stored store.now) raw }
{
    let at = position_values(raw)?;
    let record = store.records[store.directory.locate(at)?];
    Ok(Order::ReadPhase { at, record })
}

// The order of a command, one row a command.
pub(crate) fn order_of(command: Command, at: Situation, store: &Store) -> Result<Order, Fault>
    requires { length store.now.records.now ≡ 414 }
    ensures { result ≡ order_of at (stored store.now) command }
{
    let directory = store.directory;
    Ok(match command {
        Command::StartSpeed(n) => Order::StartSpeed(start_speed(n, at.plateau_speed)?),
        Command::PlateauSpeed(n) => Order::PlateauSpeed(plateau_speed(n, at.start_speed)?),
        Command::Slope(n) => Order::Slope(slope(n)?),
        Command::Distance(n) => Order::Distance(distance(n)?),
        Command::Forward => Order::Forward,
        Command::Back => Order::Back,
        Command::ZeroCounter => Order::ZeroCounter,
        Command::SetCounter(n) => Order::SetCounter(position(n)?),
        Command::Move => Order::Move,
        Command::MoveToOrigin => Order::MoveToOrigin,
        Command::MoveTo(n) => Order::MoveTo(position(n)?),
        Command::SlowStop => Order::SlowStop,
        Command::PowerOn => Order::PowerOn,
        Command::PowerOff => Order::PowerOff,
        Command::SetOutputs(n) => Order::SetOutputs(outputs(n)?),
        Command::Create(raw) => Order::Create(creatable(raw, directory)?),
        Command::Erase(n) => Order::Erase(erase_value(n)?),
        Command::Choose(n) => Order::Choose(existing(n, directory)?),
        Command::Start(n) => Order::Start(existing(n, directory)?),
        Command::Write(raw) => writing(raw, directory)?,
        Command::ReadPhase(raw) => reading(raw, store)?,
        Command::Restart => Order::Restart,
        Command::ReadParameters => Order::ReadParameters,
        Command::ReadPosition => Order::ReadPosition,
        Command::ReadVersion => Order::ReadVersion,
        Command::ReadFault => Order::ReadFault,
    })
}
