//! A script played from its first line to its last.
ghost use Rattle.std.specs.Prelude.{◌≡◌, ◌==◌, map, IfOk, OnOk, if◌then◌else◌};
ghost use Rattle.std.specs.List.{slice_split};
ghost use Rattle.scripts.specs.Asked.{asked};
ghost use Rattle.scripts.specs.Playing.{script_told, Transcribed};
ghost use Rattle.scripts.specs.Scripts.{IsSound, all_told, pending, Begins, GoesOnly, GoesOn, LineTaken};
ghost use Rattle.scripts.specs.Told.{Adds};

use crate::error::ScriptError;
use crate::expected::Expected;
use crate::line_error::LineError;
use crate::playback::tell_section;
use crate::reading::read_line;
use crate::section::Section;
use crate::step::Step;
use crate::transcript::Transcript;
use lines::check_address;
use programs::Output;
use std::alloc::{AllocError, Global};

// The module that is being gathered, if one is.
#[derive(Drop)]
struct Script<'a> {
    heap: Global,
    section: Option<Section<'a>>,
}

impl<'a> Script<'a> {
    // Tells the module so far, with its end block if the script ends it.
    fn tell(&self, ended: bool, transcript: &mut Transcript) -> Result<(), AllocError>
        requires { IsSound self.now.section }
        ensures { OnOk result (Adds (if ended then all_told self.now.section else pending self.now.section) transcript.old.bytes.items transcript.new.bytes.items) }
    {
        match &self.section {
            Some(section) => tell_section(section, ended, transcript),
            None => Ok(()),
        }
    }

    // Ends the module before, and begins another unless its address is refused.
    fn begin(
        &mut self,
        line: &[u8],
        output: Output,
        address: u8,
        transcript: &mut Transcript,
    ) -> Result<(), AllocError>
        requires { IsSound self.old.section }
        ensures { OnOk result (Begins line.now output address self.old.section self.new.section transcript.old.bytes.items transcript.new.bytes.items) }
    {
        self.tell(true, transcript)?;
        self.section = None;
        transcript.echo(line)?;
        if let Err(fault) = check_address(address) {
            transcript.refused(fault)?;
            return Ok(());
        }
        self.section = Some(Section::new(self.heap, output, address));
        Ok(())
    }

    // Goes on with the module.
    fn go_on(&mut self, line: &'a [u8], step: Step<'a>) -> Result<(), LineError>
        requires sound { IsSound self.old.section }
        requires step { GoesOnly (asked step) }
        ensures step { GoesOnly (asked step.entry) }
        ensures taken { GoesOn line.now (asked step.entry) self.old.section self.new.section result }
    {
        match &mut self.section {
            Some(section) => section.take(line, step),
            None => Err(LineError::Expected(Expected::FirstModule)),
        }
    }

    // Takes a line.
    fn take(&mut self, line: &'a [u8], transcript: &mut Transcript) -> Result<(), LineError>
        requires { IsSound self.old.section }
        ensures { LineTaken line.now self.old.section self.new.section transcript.old.bytes.items transcript.new.bytes.items result }
    {
        match read_line(line)? {
            None => Ok(()),
            Some(Step::Module { output, address }) => {
                self.begin(line, output, address, transcript)?;
                Ok(())
            }
            Some(step) => self.go_on(line, step),
        }
    }
}

// The lines of a script, each without the 0Ah that ends it.
fn split_lines(heap: Global, text: &[u8]) -> Result<Vec<&[u8]>, AllocError>
    ensures { IfOk result (λ v. map (λ l. l.now) v.items ≡ slice_split (λ b. b == 10) text.now) }
{
    text.split(|c| *c == b'\n').collect(heap)
}

/// Plays a script and adds its transcript. A line that is not understood ends it, with its number and what was expected there; what
/// came before is in the transcript. Where the heap has no room, the transcript may end anywhere.
pub fn transcribe(heap: Global, text: &[u8], transcript: &mut Transcript) -> Result<(), ScriptError>
    ensures { Transcribed (script_told text.now) transcript.old.bytes.items transcript.new.bytes.items result }
{
    let lines = split_lines(heap, text)?;
    let mut script = Script {
        heap,
        section: None,
    };
    for (i, line) in lines.iter().enumerate() {
        match script.take(line, transcript) {
            Ok(()) => {}
            Err(LineError::NoMemory) => return Err(ScriptError::NoMemory),
            Err(LineError::Expected(expected)) => {
                script.tell(false, transcript)?;
                let number = i + 1;
                return Err(ScriptError::Line { number, expected });
            }
        }
    }
    script.tell(true, transcript)?;
    Ok(())
}
