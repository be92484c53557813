//! One phase of a sequence.
ghost use Rattle.std.specs.Prelude.{◌≡◌};
ghost use Rattle.phases.specs.Phases.{Written, InLimits, SetPointFits, SequenceNumber, number_of, NextFits, LevelsFit, blank, letters_of, nature_of};

use steps::Direction;

/// What a phase does.
#[derive(Clone, Copy, PartialEq, Eq)]
pub enum Nature {
    Relative,
    Origin,
    Absolute,
    ConstantSpeed,
    Wait,
    ZeroCounter,
    PlateauSpeed,
    PowerOn,
    PowerOff,
}

/// How a phase goes on with another sequence: for good, or as a sub-sequence, which returns.
#[derive(Clone, Copy, PartialEq, Eq)]
pub enum Link<N> {
    Sequence(N),
    SubSequence(N),
}

/// The inputs that a phase names, and the levels that it asks of them, one bit for each input.
#[derive(Clone, Copy, PartialEq, Eq)]
pub struct Inputs {
    pub named: u8,
    pub levels: u8,
}

/// A phase of a sequence, each by its number.
#[derive(Clone, Copy, PartialEq, Eq)]
pub struct Position {
    pub sequence: u8,
    pub phase: u8,
}

/// A record of the phase memory, which the caller of the module lends. The fields may hold anything: a record counts as written
/// only where it is marked so and each field lies within its limits.
#[derive(Clone, Copy, PartialEq, Eq)]
pub struct Phase {
    pub written: bool,
    pub direction: Direction,
    pub nature: Nature,
    pub set_point: i32,
    pub link: Option<Link<u8>>,
    pub inputs: Inputs,
    pub next: Option<u8>,
    pub outputs: Option<u8>,
}

impl Nature {
    // Every nature.
    const ALL: [Nature; 9] = [
        Nature::Relative,
        Nature::Origin,
        Nature::Absolute,
        Nature::ConstantSpeed,
        Nature::Wait,
        Nature::ZeroCounter,
        Nature::PlateauSpeed,
        Nature::PowerOn,
        Nature::PowerOff,
    ];

    /// The two letters of the nature, in a line and in a read-back text.
    pub fn letters(self) -> &'static [u8; 2]
        ensures { result.now ≡ letters_of self }
    {
        match self {
            Nature::Relative => b"NP",
            Nature::Origin => b"NH",
            Nature::Absolute => b"NX",
            Nature::ConstantSpeed => b"NV",
            Nature::Wait => b"NW",
            Nature::ZeroCounter => b"NZ",
            Nature::PlateauSpeed => b"NC",
            Nature::PowerOn => b"NT",
            Nature::PowerOff => b"NU",
        }
    }

    /// The nature of these letters, or None where no nature has them.
    pub fn of_letters(letters: &[u8]) -> Option<Nature>
        ensures { result ≡ nature_of letters.now }
    {
        Nature::ALL
            .iter()
            .copied()
            .find(|nature| letters == nature.letters().as_slice())
    }

    /// Whether the set point lies within the limits of the nature.
    pub fn takes(self, set_point: i64) -> bool
        ensures { result ≡ SetPointFits self set_point }
    {
        match self {
            Nature::Relative | Nature::ConstantSpeed if (0..=999_998).contains(&set_point) => true,
            Nature::Absolute if (-8_388_606..=8_388_606).contains(&set_point) => true,
            Nature::Wait if (1..=65_000).contains(&set_point) => true,
            Nature::PlateauSpeed if (20..=20_000).contains(&set_point) => true,
            Nature::Origin | Nature::ZeroCounter | Nature::PowerOn | Nature::PowerOff
                if set_point == 0 => true,
            _ => false,
        }
    }
}

impl Link<u8> {
    fn fits(self) -> bool
        ensures { result ≡ SequenceNumber (number_of self) }
    {
        let (Link::Sequence(number) | Link::SubSequence(number)) = self;
        (1..=99).contains(&number)
    }
}

/// Whether a phase can name this as the phase to go on with: none, 1 to 50, or 54, which is the stop.
pub fn next_fits(next: Option<u8>) -> bool
    ensures { result ≡ NextFits next }
{
    matches!(next, None | Some(1..=50 | 54))
}

impl Inputs {
    /// No input is named.
    pub const NONE: Inputs = Inputs {
        named: 0,
        levels: 0,
    };

    // Whether only named inputs have a wanted level.
    fn fit(self) -> bool
        ensures { result ≡ LevelsFit self }
    {
        self.named & self.levels == self.levels
    }
}

impl Phase {
    /// The blank record, which is not written.
    pub const BLANK: Phase = Phase {
        written: false,
        direction: Direction::Forward,
        nature: Nature::Relative,
        set_point: 0,
        link: None,
        inputs: Inputs::NONE,
        next: None,
        outputs: None,
    };

    // Whether each field lies within its limits.
    fn in_limits(&self) -> bool
        ensures { result ≡ InLimits self.now }
    {
        self.nature.takes(i64::from(self.set_point))
            && self.link.is_none_or(Link::fits)
            && next_fits(self.next)
            && self.inputs.fit()
    }

    /// Whether the record counts as written: it is marked so, and each field lies within its limits.
    pub fn is_written(&self) -> bool
        ensures { result ≡ Written self.now }
    {
        self.written && self.in_limits()
    }

    /// The blank record, which is not written.
    pub fn blank() -> Phase
        ensures { result ≡ blank }
    {
        Phase::BLANK
    }
}
