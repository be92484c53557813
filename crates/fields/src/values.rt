//! The limits of the values that the words of the store's commands give.
ghost use Rattle.std.specs.Prelude.{◌≡◌, ◌≤◌, ◌&&◌, ℕ, false, Err, nat_le};
ghost use Rattle.fields.specs.Values.{Becomes, limited, within as within_of, sequence_value, position_values, block_values, erase_value, set_point_value, link_value, next_value, outputs_value, record_values, sp_values};
ghost use Rattle.faults.specs.Faults.{past_limit};

use crate::fields::{Action, Amount, Options, RawPhase, RawPosition};
use faults::Fault;
use phases::{Link, Phase, Position, next_fits};
use store::Block;

/// The number as a value of the type, or the fault where it is not from `low` to `high`.
#[tactic(auto, unfolding(crate::specs::Values::limited))]
pub fn within<T: TryFrom<u64>>(low: u64, high: u64, fault: Fault, n: u64) -> Result<T, Fault>
where
    T::Error: Drop,
    ensures refused { (nat_le low n && nat_le n high) ≡ false → result ≡ Err fault }
    ensures value { (value : ℕ → T) → ((m : ℕ) → m ≤ high → Becomes T.try_from_gives m (value m)) → result ≡ limited value low high fault n }
{
    if (low..=high).contains(&n) {
        T::try_from(n).map_err(|_| fault)
    } else {
        Err(fault)
    }
}

/// The number of a sequence, 1 to 99. Past that, word 2 is at fault.
pub fn sequence_value(n: u64) -> Result<u8, Fault>
    ensures { result ≡ sequence_value n }
{
    within(1, 99, Fault::past_limit(2), n)
}

/// The number of a sequence, 1 to 99, and that of a phase in it, or how many it reserves, 1 to 50. The first of words 2 and 3 that is
/// past its limit is at fault.
#[tactic(auto, unfolding(crate::specs::Values::position_values))]
pub fn position_values(raw: RawPosition) -> Result<Position, Fault>
    ensures { result ≡ position_values raw }
{
    let sequence = sequence_value(raw.sequence)?;
    let phase = within(1, 50, Fault::no_such_phase(3), raw.phase)?;
    Ok(Position { sequence, phase })
}

/// The number of a sequence to create, 1 to 99, and how many phases it reserves, 1 to 50. The first of words 2 and 3 that is past its
/// limit is at fault.
pub fn block_values(raw: RawPosition) -> Result<Block, Fault>
    ensures { result ≡ block_values raw }
{
    let Position { sequence, phase } = position_values(raw)?;
    Ok(Block {
        number: sequence,
        reserve: phase,
    })
}

/// The sequence to erase, 1 to 99, or None for all of them, which 0 stands for. Past that, word 2 is at fault.
pub fn erase_value(n: u64) -> Result<Option<u8>, Fault>
    ensures { result ≡ erase_value n }
{
    if n == 0 {
        return Ok(None);
    }
    Ok(Some(sequence_value(n)?))
}

// The set point within the limits of the nature.
#[tactic(auto, using(phases::proofs::Limits::set_point_fits32), unfolding(crate::specs::Values::set_point_value))]
fn set_point_value(action: Action) -> Result<i32, Fault>
    ensures { result ≡ set_point_value action }
{
    match i32::try_from(action.set_point) {
        Ok(set_point) if action.nature.takes(action.set_point) => Ok(set_point),
        _ => Err(Fault::past_limit(6)),
    }
}

// The number of a word, from `low` to `high`.
fn amount_value(low: u8, high: u8, n: Amount) -> Result<u8, Fault>
    ensures { result ≡ within_of low high (past_limit n.at) n.value }
{
    within(
        u64::from(low),
        u64::from(high),
        Fault::past_limit(n.at),
        n.value,
    )
}

#[tactic(auto, unfolding(crate::specs::Values::link_value))]
fn link_value(link: Option<Link<Amount>>) -> Result<Option<Link<u8>>, Fault>
    ensures { result ≡ link_value link }
{
    match link {
        Some(Link::Sequence(n)) => Ok(Some(Link::Sequence(amount_value(1, 99, n)?))),
        Some(Link::SubSequence(n)) => Ok(Some(Link::SubSequence(amount_value(1, 99, n)?))),
        None => Ok(None),
    }
}

// The phase to go on with, 1 to 50, or 54, which is the stop.
#[tactic(auto, unfolding(crate::specs::Values::next_value, crate::specs::Values::limited))]
fn next_value(next: Option<Amount>) -> Result<Option<u8>, Fault>
    ensures { result ≡ next_value next }
{
    let Some(n) = next else {
        return Ok(None);
    };
    let np = amount_value(1, 54, n)?;
    if next_fits(Some(np)) {
        Ok(Some(np))
    } else {
        Err(Fault::past_limit(n.at))
    }
}

#[tactic(auto, unfolding(crate::specs::Values::outputs_value))]
fn outputs_value(outputs: Option<Amount>) -> Result<Option<u8>, Fault>
    ensures { result ≡ outputs_value outputs }
{
    outputs.map(|n| amount_value(0, 255, n)).transpose()
}

// The record of a phase, its fields within their limits.
#[tactic(auto, unfolding(crate::specs::Values::record_values))]
fn record_values(action: Action, options: Options) -> Result<Phase, Fault>
    ensures { result ≡ record_values action options }
{
    let set_point = set_point_value(action)?;
    let link = link_value(options.link)?;
    let next = next_value(options.next)?;
    let outputs = outputs_value(options.outputs)?;
    Ok(Phase {
        written: true,
        direction: action.direction,
        nature: action.nature,
        set_point,
        link,
        inputs: options.inputs,
        next,
        outputs,
    })
}

/// The position of a phase and its record, which counts as written. The first word whose value is past its limit is at fault.
#[tactic(auto, unfolding(crate::specs::Values::sp_values))]
pub fn sp_values(raw: RawPhase) -> Result<(Position, Phase), Fault>
    ensures { result ≡ sp_values raw }
{
    let at = position_values(raw.at)?;
    let record = record_values(raw.action, raw.options)?;
    Ok((at, record))
}
