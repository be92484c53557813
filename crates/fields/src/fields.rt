//! The words of the command SP, read into the fields of a phase.
ghost use Rattle.std.specs.Prelude.{◌≡◌, codes, length, OnOk, if◌then◌else◌, Some, None};
ghost use Rattle.std.specs.Option.{option_and_then, option_map};
ghost use Rattle.words.specs.Left.{ahead};
ghost use Rattle.words.specs.Sorts.{number_in, number_text, marks_text, tag_text};
ghost use Rattle.words.specs.Tags.{past_field};
ghost use Rattle.words.specs.Words.{past};
ghost use Rattle.phases.specs.Phases.{nature_of};
ghost use Rattle.phases.specs.declared.phase.Link.TheVariants as link;
ghost use Rattle.fields.specs.Fields.{direction_of, set_point_of, is_mark, named_by, level_by, inputs_of, placed, amount_by, link_in, past_link, inputs_in, next_in, outputs_in, position_in, action_in, options_in, past_options, sp_form};

use faults::Fault;
use phases::{Inputs, Link, Nature};
use steps::Direction;
use words::{Placed, Reader, Word, signed_value};

/// A number, not yet tested against its limits, with the number of its word.
#[derive(Clone, Copy)]
pub struct Amount {
    pub value: u64,
    pub at: u8,
}

/// The numbers of a sequence and of a phase in it, or how many phases it reserves, not yet tested against their limits.
#[derive(Clone, Copy)]
pub struct RawPosition {
    pub sequence: u64,
    pub phase: u64,
}

/// What a phase does: its direction, its nature and its set point, which is not yet tested against the limits of the nature.
#[derive(Clone, Copy)]
pub struct Action {
    pub direction: Direction,
    pub nature: Nature,
    pub set_point: i64,
}

/// The fields of a phase that may be left out: the link, the inputs, the phase to go on with, the outputs.
#[derive(Clone, Copy)]
pub struct Options {
    pub link: Option<Link<Amount>>,
    pub inputs: Inputs,
    pub next: Option<Amount>,
    pub outputs: Option<Amount>,
}

/// What the words of SP say, before their values are tested against their limits.
#[derive(Clone, Copy)]
pub struct RawPhase {
    pub at: RawPosition,
    pub action: Action,
    pub options: Options,
}

// S and the sign of a direction.
fn direction_of(word: Placed) -> Option<Direction>
    ensures { result ≡ option_and_then direction_of (tag_text word.entry.word) }
{
    match word.word {
        Word::Tag(b"S+") => Some(Direction::Forward),
        Word::Tag(b"S-") => Some(Direction::Back),
        _ => None,
    }
}

// The letters of a nature.
fn nature_of(word: Placed) -> Option<Nature>
    ensures { result ≡ option_and_then nature_of (tag_text word.entry.word) }
{
    match word.word {
        Word::Tag(letters) => Nature::of_letters(letters),
        _ => None,
    }
}

// C and the set point.
fn set_point_of(word: Placed) -> Option<i64>
    ensures { result ≡ option_and_then set_point_of (number_text word.entry.word) }
{
    match word.word {
        Word::Number([b'C', number @ ..]) => signed_value(number),
        _ => None,
    }
}

// Whether a mark names its input, and whether it asks for the high level, each as a bit.
fn mark_of(mark: u8) -> Option<(u8, u8)>
    ensures { result ≡ (if is_mark mark then Some (named_by mark, level_by mark) else None) }
{
    match mark {
        b'X' => Some((0, 0)),
        b'0' => Some((1, 0)),
        b'1' => Some((1, 1)),
        _ => None,
    }
}

// What eight marks ask for.
fn inputs_of(word: Placed) -> Option<Inputs>
    ensures { result ≡ option_and_then inputs_of (marks_text word.entry.word) }
{
    match word.word {
        Word::Marks(marks) if marks.len() == 8 => inputs_from(marks),
        _ => None,
    }
}

fn inputs_from(marks: &[u8]) -> Option<Inputs>
    requires { length marks.now ≡ 8 }
    ensures { result ≡ inputs_of marks.now }
{
    let mut inputs = Inputs::NONE;
    for mark in marks.iter().rev() {
        let (named, level) = mark_of(*mark)?;
        inputs = Inputs {
            named: 2 * inputs.named + named,
            levels: 2 * inputs.levels + level,
        };
    }
    Some(inputs)
}

// A number with the number of its word.
fn placed_number(word: Placed) -> Option<Amount>
    ensures { result ≡ placed word.entry.at (number_in word.entry.word) }
{
    let value = word.number()?;
    Some(Amount { value, at: word.at })
}

// A number that may be left out as XX.
fn amount_of(word: Placed) -> Option<Option<Amount>>
    ensures { result ≡ amount_by word.entry.at word.entry.word }
{
    match word.word {
        Word::Number(b"XX") | Word::Hexadecimal(b"XX") => Some(None),
        _ => placed_number(word).map(Some),
    }
}

// A sequence to go on with, or XX for none.
fn sequence_of(word: Placed) -> Option<Option<Link<Amount>>>
    ensures { result ≡ option_map (option_map link.Sequence) (amount_by word.entry.at word.entry.word) }
{
    amount_of(word).map(|n| n.map(Link::Sequence))
}

// A sub-sequence.
fn sub_sequence_of(word: Placed) -> Option<Option<Link<Amount>>>
    ensures { result ≡ option_map (λ n. Some (link.SubSequence n)) (placed word.entry.at (number_in word.entry.word)) }
{
    placed_number(word).map(|n| Some(Link::SubSequence(n)))
}

// The link, if there is one.
#[tactic(auto, unfolding(crate::specs::Fields::link_in, crate::specs::Fields::past_link, words::specs::Tags::past_field))]
fn read_link(reader: &mut Reader) -> Result<Option<Link<Amount>>, Fault>
    ensures value { result ≡ link_in (ahead reader.old) }
    ensures ahead { ahead reader.new ≡ past_link (ahead reader.old) }
{
    let Some(next) = reader.next_tag() else {
        return Ok(None);
    };
    match next.word {
        Word::Tag(b"NL") => {
            reader.skip();
            reader.read(Word::Number, sequence_of)
        }
        Word::Tag(b"NQ") => {
            reader.skip();
            reader.read(Word::Number, sub_sequence_of)
        }
        _ => Ok(None),
    }
}

// The inputs, if there are any.
#[tactic(auto, unfolding(crate::specs::Fields::inputs_in, words::specs::Tags::past_field))]
fn read_inputs(reader: &mut Reader) -> Result<Inputs, Fault>
    ensures value { result ≡ inputs_in (ahead reader.old) }
    ensures ahead { ahead reader.new ≡ past_field (codes "NE") (ahead reader.old) }
{
    match reader.next_tag() {
        Some(next) if matches!(next.word, Word::Tag(b"NE")) => {
            reader.skip();
            reader.read(Word::Marks, inputs_of)
        }
        _ => Ok(Inputs::NONE),
    }
}

// The phase to go on with, if there is one.
#[tactic(auto, unfolding(crate::specs::Fields::next_in, words::specs::Tags::past_field))]
fn read_next(reader: &mut Reader) -> Result<Option<Amount>, Fault>
    ensures value { result ≡ next_in (ahead reader.old) }
    ensures ahead { ahead reader.new ≡ past_field (codes "NS") (ahead reader.old) }
{
    match reader.next_tag() {
        Some(next) if matches!(next.word, Word::Tag(b"NS")) => {
            reader.skip();
            reader.read(Word::Number, amount_of)
        }
        _ => Ok(None),
    }
}

// The outputs, if they are set.
#[tactic(auto, unfolding(crate::specs::Fields::outputs_in, words::specs::Tags::past_field))]
fn read_outputs(reader: &mut Reader) -> Result<Option<Amount>, Fault>
    ensures value { result ≡ outputs_in (ahead reader.old) }
    ensures ahead { ahead reader.new ≡ past_field (codes "NO") (ahead reader.old) }
{
    match reader.next_tag() {
        Some(next) if matches!(next.word, Word::Tag(b"NO")) => {
            reader.skip();
            reader.read(Word::Hexadecimal, amount_of)
        }
        _ => Ok(None),
    }
}

/// Reads two words: the numbers of a sequence and of a phase in it. The first that is missing or of wrong form is at fault.
#[tactic(auto, unfolding(crate::specs::Fields::position_in))]
pub fn read_position(reader: &mut Reader) -> Result<RawPosition, Fault>
    ensures value { result ≡ position_in (ahead reader.old) }
    ensures ahead { OnOk result (ahead reader.new ≡ past (past (ahead reader.old))) }
{
    let sequence = reader.unsigned()?;
    let phase = reader.unsigned()?;
    Ok(RawPosition { sequence, phase })
}

// The words of what the phase does.
#[tactic(auto, unfolding(crate::specs::Fields::action_in))]
fn read_action(reader: &mut Reader) -> Result<Action, Fault>
    ensures value { result ≡ action_in (ahead reader.old) }
    ensures ahead { OnOk result (ahead reader.new ≡ past (past (past (ahead reader.old)))) }
{
    let direction = reader.read(Word::Tag, direction_of)?;
    let nature = reader.read(Word::Tag, nature_of)?;
    let set_point = reader.read(Word::Number, set_point_of)?;
    Ok(Action {
        direction,
        nature,
        set_point,
    })
}

// The words of the fields that may be left out.
#[tactic(auto, unfolding(crate::specs::Fields::options_in, crate::specs::Fields::past_options))]
fn read_options(reader: &mut Reader) -> Result<Options, Fault>
    ensures value { result ≡ options_in (ahead reader.old) }
    ensures ahead { OnOk result (ahead reader.new ≡ past_options (ahead reader.old)) }
{
    let link = read_link(reader)?;
    let inputs = read_inputs(reader)?;
    let next = read_next(reader)?;
    let outputs = read_outputs(reader)?;
    Ok(Options {
        link,
        inputs,
        next,
        outputs,
    })
}

/// Reads the words that follow the command SP, and no word after them. The first word that is not as it is due is at fault.
pub fn read_sp(reader: &mut Reader) -> Result<RawPhase, Fault>
    ensures { result ≡ sp_form (ahead reader.old) }
{
    let at = read_position(reader)?;
    let action = read_action(reader)?;
    let options = read_options(reader)?;
    reader.end()?;
    Ok(RawPhase {
        at,
        action,
        options,
    })
}
