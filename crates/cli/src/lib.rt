// What every program does alike: its arguments, its files, its refusals and its errors.
#![tactic(auto)]

ghost use Rattle.std.specs.Prelude.{◌≡◌, OnOk, OnErr};

use changes::failure::Failure;
use std::fmt::Display;
use std::fs::File;
use std::io::Write;
use std::process::ExitCode;
use std::{env, fs, io};
use tables::lines::refusal_line;

// The program has said what is wrong, and ends with status 1.
#[derive(Debug, Drop)]
pub struct Failed;

// A program's exit status. What went wrong is printed already, so a program ends with this and not with the error itself.
// A function and no `From`: both types are the library's.
pub fn status_of(done: Result<(), Failed>) -> ExitCode
    ensures ok { OnOk done (result ≡ ExitCode.SUCCESS) }
    ensures err { OnErr done (result ≡ ExitCode.FAILURE) }
{
    match done {
        Ok(()) => ExitCode::SUCCESS,
        Err(Failed) => ExitCode::FAILURE,
    }
}

// A program: what it runs on, and the name that its messages begin with.
#[derive(Clone, Copy)]
pub struct Program<'a> {
    pub rt: &'a HostRuntime,
    pub name: &'a str,
}

impl Program<'_> {
    // The words behind the program's name.
    pub fn arguments(&self) -> Result<Vec<String>, Failed> {
        collected(self.rt).map_err(|error| self.cannot("read its arguments", error))
    }

    // The bytes of a file.
    pub fn read_file(&self, path: &str) -> Result<Vec<u8>, Failed> {
        fs::read(self.rt, path).map_err(|error| self.cannot(format_args!("read {path}"), error))
    }

    // Writes a file whole or not at all: what stood there before stays until the new file is complete.
    pub fn save_file(&self, path: &str, bytes: &[u8]) -> Result<(), Failed> {
        let done = replaced(self.rt, path, bytes);
        done.map_err(|error| self.cannot(format_args!("write {path}"), error))
    }

    // Text on standard output, by one write.
    pub fn print(&self, text: &str) -> Result<(), Failed> {
        self.rt
            .stdout()
            .write_all(text.as_bytes())
            .map_err(|error| self.cannot("write its answer", error))
    }

    // Text on standard error that an answer does not depend on.
    pub fn hint(&self, text: &str) {
        let _ = self.rt.stderr().write_all(text.as_bytes());
    }

    // The line of a refusal on standard output, or one on standard error where memory is short.
    pub fn fail(&self, failure: Failure) -> Failed {
        if let Failure::Refused(refusal) = failure
            && let Ok(line) = refusal_line(self.rt.alloc(), refusal)
        {
            let _ = self.print(&line);
        } else {
            let _ = eprintln!(self.rt; "{}: not enough memory", self.name);
        }
        Failed
    }

    // One line on standard error that says what the program could not do.
    fn cannot<T: Display + Drop>(&self, what: T, error: io::Error) -> Failed {
        let _ = eprintln!(self.rt; "{}: cannot {what}: {error}", self.name);
        Failed
    }
}

fn collected(rt: &HostRuntime) -> io::Result<Vec<String>> {
    Ok(env::args(rt)?.skip(1).collect(rt.alloc())?)
}

// By a file beside it, which takes its name once it is on the disk.
fn replaced(rt: &HostRuntime, path: &str, bytes: &[u8]) -> io::Result<()> {
    let part = format!(in rt.alloc(); "{path}.part")?;
    written(rt, &part, bytes)
        .and_then(|()| fs::rename(rt, &part, path))
        .inspect_err(|_| {
            let _ = fs::remove_file(rt, &part);
        })
}

fn written(rt: &HostRuntime, path: &str, bytes: &[u8]) -> io::Result<()> {
    let mut file = File::create(rt, path)?;
    file.write_all(bytes)?;
    file.sync_all()
}
