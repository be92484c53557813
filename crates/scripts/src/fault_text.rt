//! A fault record as a transcript tells it.
use faults::Fault;
use std::fmt;

#[derive(Clone, Copy)]
pub(crate) struct FaultText(pub Option<Fault>);

impl fmt::Display for FaultText {
    ghost use Rattle.std.specs.Prelude.{Some};
    ghost use Rattle.scripts.specs.Texts.{record_text};

    ghost output = { λ fault. Some (record_text fault.0) };

    fn fmt<W: fmt::Write>(&self, f: &mut fmt::Formatter<W>) -> fmt::Result {
        let Some(fault) = self.0 else {
            return write!(f, "none");
        };
        let number = fault.cause.number();
        let place = fault.place;
        let word = fault.word_number();
        write!(f, "{number} {place} {word}")
    }
}
