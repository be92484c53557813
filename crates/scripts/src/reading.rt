//! A line of a script, read.
ghost use Rattle.std.specs.Prelude.{◌≡◌};
ghost use Rattle.scripts.specs.Asked.{asked, asked_in, asked_by, asked_of};
ghost use Rattle.scripts.specs.Cut.{first_word, behind, text_in};
ghost use Rattle.scripts.specs.Numbers.{decimal_of};
ghost use Rattle.scripts.specs.Orders.{order_named};
ghost use Rattle.scripts.specs.PassedOver.{blank, comment};
ghost use Rattle.scripts.specs.Reading.{damage_of, character_of, levels_of, room_of, action_of, lent_of, lent_call, module_of, ticks_of, whole, one_call, alone, order_asks, words_ask, line_asks};

use crate::expected::{Expected, MOST_CALLS};
use crate::numbers::{read_decimal, read_hexadecimal};
use crate::order::Order;
use crate::section::with_records;
use crate::step::Step;
use history::{Action, Call, Character};
use programs::Output;
use replies::REPLY_ROOM;
use store::RECORDS;
use words::cut;

// Nothing but blanks.
fn is_blank(line: &[u8]) -> bool
    ensures { result ≡ blank line.now }
{
    line.iter().all(|c| *c == b' ')
}

fn is_comment(line: &[u8]) -> bool
    ensures { result ≡ comment line.now }
{
    line.first() == Some(&b'#')
}

// The first word of a line, and what stands behind the blank after it.
#[tactic(auto, using(crate::proofs::Cut::cut_word, crate::proofs::Cut::cut_behind))]
fn split_word(line: &[u8]) -> (&[u8], Option<&[u8]>)
    ensures word { result.0.now ≡ first_word line.now }
    ensures behind { text_in result.1 ≡ behind line.now }
{
    cut(line)
}

// Whether a byte is damaged, by what stands behind it.
fn read_damage(text: Option<&[u8]>) -> Option<bool>
    ensures { result ≡ damage_of (text_in text.entry) }
{
    match text {
        None => Some(false),
        Some(b"damaged") => Some(true),
        Some(_) => None,
    }
}

// A character with this room, from HH or HH damaged.
fn read_character(text: &[u8], room: usize) -> Option<Action>
    ensures { result ≡ character_of room text.now }
{
    let (digits, more) = split_word(text);
    let byte = read_hexadecimal(digits)?;
    let damaged = read_damage(more)?;
    Some(Action::Character {
        character: Character { byte, damaged },
        room,
    })
}

fn read_levels(text: &[u8]) -> Option<Action>
    ensures { result ≡ levels_of text.now }
{
    Some(Action::Levels(read_hexadecimal(text)?))
}

// A number of bytes or records; what is too great for one counts as the greatest.
fn read_size(text: &[u8]) -> Option<usize>
    ensures { result ≡ decimal_of text.now }
{
    Some(usize::try_from(read_decimal(text)?).unwrap_or(usize::MAX))
}

// The output and the address of a module; an address above 255 counts as that, and is refused as any above 63.
fn read_module(text: &[u8]) -> Option<Step<'_>>
    ensures { asked_of result ≡ module_of text.now }
{
    let (name, address) = split_word(text);
    let output = Output::named(name)?;
    let address = u8::try_from(read_decimal(address?)?).unwrap_or(u8::MAX);
    Some(Step::Module { output, address })
}

fn read_ticks(text: &[u8]) -> Option<Step<'_>>
    ensures { asked_of result ≡ ticks_of text.now }
{
    let count = read_size(text)?;
    if count > MOST_CALLS {
        return None;
    }
    Some(Step::Ticks(count))
}

// A character call with a reply buffer of that many bytes, the whole memory being lent.
fn read_room(text: &[u8]) -> Option<Call>
    ensures { result ≡ whole (room_of text.now) }
{
    let (size, text) = split_word(text);
    Some(with_records(read_character(text?, read_size(size)?)?))
}

// What a call is lent; more records than the memory has are refused as none are.
fn lent_of(size: usize) -> usize
    ensures { result ≡ lent_of size }
{
    if size > RECORDS { 0 } else { size }
}

// What is asked by a call that is lent so many records.
fn read_action(order: Option<Order>, text: Option<&[u8]>) -> Option<Action>
    ensures { result ≡ action_of order (text_in text.entry) }
{
    match (order, text) {
        (Some(Order::Tick), None) => Some(Action::Tick),
        (Some(Order::PowerUp), None) => Some(Action::PowerUp),
        (Some(Order::Levels), Some(text)) => read_levels(text),
        (Some(Order::Byte), Some(text)) => read_character(text, REPLY_ROOM),
        _ => None,
    }
}

fn read_lent(text: &[u8]) -> Option<Call>
    ensures { result ≡ lent_call text.now }
{
    let (size, text) = split_word(text);
    let lent = lent_of(read_size(size)?);
    let (name, text) = split_word(text?);
    let action = read_action(Order::named(name), text)?;
    Some(Call { lent, action })
}

// A character call that is lent the whole memory.
fn read_byte(text: &[u8]) -> Option<Call>
    ensures { result ≡ whole (character_of 80 text.now) }
{
    Some(with_records(read_character(text, REPLY_ROOM)?))
}

// New levels, the whole memory being lent.
fn read_levels_call(text: &[u8]) -> Option<Call>
    ensures { result ≡ whole (levels_of text.now) }
{
    Some(with_records(read_levels(text)?))
}

// A line of one word alone.
fn read_alone<'a>(step: Step<'a>, text: Option<&[u8]>) -> Result<Step<'a>, Expected>
    ensures { asked_by result ≡ alone (asked step.entry) (text_in text.entry) }
{
    match text {
        None => Ok(step),
        Some(_) => Err(Expected::Alone),
    }
}

// A line that makes one call, or what its first word wants after it.
fn read_call(call: Option<Call>, wanted: Expected) -> Result<Step<'static>, Expected>
    ensures { asked_by result ≡ one_call call wanted }
{
    Ok(Step::Once(call.ok_or(wanted)?))
}

// What an order asks for with the text behind it.
fn read_order<'a>(order: Order, text: Option<&'a [u8]>) -> Result<Step<'a>, Expected>
    ensures { asked_by result ≡ order_asks order (text_in text.entry) }
{
    match order {
        Order::Module => text.and_then(read_module).ok_or(Expected::Module),
        Order::Send => Ok(Step::Send(text.unwrap_or(&[]))),
        Order::Type => Ok(Step::Type(text.unwrap_or(&[]))),
        Order::Byte => read_call(text.and_then(read_byte), Expected::Byte),
        Order::Tick => text.and_then(read_ticks).ok_or(Expected::Ticks),
        Order::Levels => read_call(text.and_then(read_levels_call), Expected::Levels),
        Order::PowerUp => read_alone(Step::Once(with_records(Action::PowerUp)), text),
        Order::Room => read_call(text.and_then(read_room), Expected::Room),
        Order::Lent => read_call(text.and_then(read_lent), Expected::Lent),
        Order::Fault => read_alone(Step::Fault, text),
        Order::State => read_alone(Step::State, text),
    }
}

// What a line of words asks for.
fn read_words(line: &[u8]) -> Result<Step<'_>, Expected>
    ensures { asked_by result ≡ words_ask (order_named (first_word line.now)) (behind line.now) }
{
    let (name, text) = split_word(line);
    let order = Order::named(name).ok_or(Expected::Order)?;
    read_order(order, text)
}

/// What a line of a script asks for, without its 0Ah; none for a comment and a line of blanks, which are passed over. What was expected
/// in place of a line that is not understood.
pub fn read_line(line: &[u8]) -> Result<Option<Step<'_>>, Expected>
    ensures { asked_in result ≡ line_asks line.now }
{
    if is_comment(line) || is_blank(line) {
        return Ok(None);
    }
    Ok(Some(read_words(line)?))
}
