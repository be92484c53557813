//! A program while it runs.
ghost use Rattle.std.specs.Prelude.{◌≡◌, ◌≤◌, ℕ, List, Ok, OnOk, IsErr};
ghost use Rattle.std.specs.Borrow.{Bor};
ghost use Rattle.std.specs.Process.{exit_status};
ghost use Rattle.programs.specs.Ends.{status_of};
ghost use Rattle.programs.specs.Requests.{Followed};
ghost use Rattle.programs.specs.Naming.{name_of};

use crate::failed::Failed;
use crate::naming::name_of;
use crate::request::{Request, WrongUse};
use std::fmt::Display;
use std::io::Read;
use std::process::ExitCode;
use std::{env, fs, io};

/// A program that runs.
#[derive(Clone, Copy)]
pub struct Program<'a> {
    /// What it reads, prints and allocates by.
    pub rt: &'a HostRuntime,
    /// Its name, which stands before what it tells on standard error.
    pub name: &'a str,
    /// Its usage, whose first line says how the arguments are written.
    pub usage: &'a str,
}

// The status of a program whose work ended so.
fn status_of(outcome: Result<(), Failed>) -> ExitCode
    ensures { exit_status result ≡ status_of outcome }
{
    match outcome {
        Ok(()) => ExitCode::SUCCESS,
        Err(Failed) => ExitCode::FAILURE,
    }
}

impl Program<'_> {
    /// Does what the arguments after the program's name ask for: status 0 where that was done, else 1. Arguments that cannot be read are
    /// told, with status 1.
    pub fn run<F: FnOnce(&[String]) -> Result<(), Failed>>(&self, follow: F) -> ExitCode
        requires { F.IsAlwaysCallable follow }
        ensures done { exit_status result ≡ 0 → (words : _) × F.post follow words (Ok tt) }
        ensures status { exit_status result ≤ 1 }
    {
        status_of(self.start(follow))
    }

    fn start<F: FnOnce(&[String]) -> Result<(), Failed>>(&self, follow: F) -> Result<(), Failed>
        requires { F.IsAlwaysCallable follow }
        ensures { OnOk result ((words : _) × F.post follow words (Ok tt)) }
    {
        match self.arguments() {
            Ok(words) => follow(words.as_slice()),
            Err(error) => self.fail(format_args!("the arguments cannot be read: {error}")),
        }
    }

    // The arguments after the program's name.
    fn arguments(&self) -> io::Result<Vec<String>> {
        Ok(env::args(self.rt)?.skip(1).collect(self.rt.alloc())?)
    }

    fn tell<M: Display + Drop>(&self, trouble: M) -> io::Result<()> {
        let name = self.name;
        eprintln!(self.rt; "{name}: {trouble}")
    }

    /// Tells what went wrong.
    pub fn fail<M: Display + Drop>(&self, trouble: M) -> Result<(), Failed>
        ensures { IsErr result }
    {
        self.tell(trouble)?;
        Err(Failed)
    }

    // Tells why the arguments cannot be followed, and how they are written.
    fn refuse(&self, wrong: WrongUse) -> Result<(), Failed>
        ensures { IsErr result }
    {
        self.tell(wrong)?;
        if let Some(usage) = self.usage.lines().next() {
            eprintln!(self.rt; "{usage}")?;
        }
        Err(Failed)
    }

    /// Does what the arguments ask for: tells the usage, does the work, or tells why they cannot be followed.
    pub fn follow<T: Drop, F: FnOnce(T) -> Result<(), Failed>>(
        &self,
        asked: Result<Request<T>, WrongUse>,
        work: F,
    ) -> Result<(), Failed>
        requires { F.IsAlwaysCallable work }
        ensures { OnOk result (Followed asked.entry (λ wanted. F.post work wanted (Ok tt))) }
    {
        match asked {
            Ok(Request::Usage) => {
                let usage = self.usage;
                println!(self.rt; "{usage}")?;
                Ok(())
            }
            Ok(Request::Work(wanted)) => work(wanted),
            Err(wrong) => self.refuse(wrong),
        }
    }

    // The bytes of a file, or of standard input for -.
    fn read(&self, file: &str) -> io::Result<Vec<u8>> {
        if file != "-" {
            return fs::read(self.rt, file);
        }
        let mut bytes = Vec::new(self.rt.alloc());
        self.rt.stdin().read_to_end(&mut bytes)?;
        Ok(bytes)
    }

    /// Does the program's work on the bytes of a file, or of standard input for -, with the name that is printed for it. A file that
    /// cannot be read is told.
    pub fn with_file<F: FnOnce(&str, &[u8]) -> Result<(), Failed>>(
        &self,
        file: &str,
        work: F,
    ) -> Result<(), Failed>
        requires { F.IsAlwaysCallable work }
        ensures { OnOk result ((name : Bor (List ℕ)) × (bytes : _) × (name.now ≡ name_of file.now) × F.post work name bytes (Ok tt)) }
    {
        match self.read(file) {
            Ok(bytes) => work(name_of(file), bytes.as_slice()),
            Err(error) => self.fail(format_args!("{file}: {error}")),
        }
    }
}
