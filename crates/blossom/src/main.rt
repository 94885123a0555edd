//! The program `blossom`: `match_cli::run` over the words, the input and the output of a process.
//! It depends on `match_cli`, `check_text` and `mb_base`. It promises that the answer is one that
//! `run` gives to these words, with no step counted before, and that the exit status is that of the
//! answer. What the operating system does with standard input and output is trusted.
#![tactic(auto)]

ghost use Rattle.std.specs.Prelude.{◌≡◌, ◌<◌, map, string_bytes};
ghost use Rattle.std.specs.Process.{exit_status};
ghost use Rattle.check_text.specs.Codes.{code_of};
ghost use Rattle.match_cli.specs.Runs.{Around, Runs};

use match_cli::{Status, run};
use mb_base::{OutOfMemory, RealIn, RealOut, Steps};
use std::env::{self, Env, FillError};
use std::io;
use std::marker::Brand;
use std::process::ExitCode;
use std::sync::ledger::{Blank, Ledger};

/// The process's words and environment, but for the first word, which is answered as empty: it
/// stands for the program's name, and needn't be text.
#[derive(Drop)]
struct Nameless<'a> {
    rt: &'a HostRuntime,
}

impl Env for Nameless<'_> {
    fn arg(&self, place: usize, buf: &mut [u8]) -> Result<usize, FillError> {
        if place == 0 {
            return Ok(0);
        }
        self.rt.arg(place, buf)
    }

    fn var(&self, name: &str, buf: &mut [u8]) -> Result<usize, FillError> {
        self.rt.var(name, buf)
    }

    fn var_at(&self, place: usize, buf: &mut [u8]) -> Result<usize, FillError> {
        self.rt.var_at(place, buf)
    }
}

/// The words of the command line. If one after the program's name isn't text there are none, which
/// isn't a command.
fn words(rt: &HostRuntime) -> Result<Vec<String>, OutOfMemory> {
    let mut words = Vec::new(rt.alloc());
    match env::args(&(Nameless { rt }, rt.alloc())) {
        Ok(args) => {
            for word in args {
                words.push(word)?;
            }
        }
        Err(error) => {
            if error.kind() == io::ErrorKind::OutOfMemory {
                return Err(std::alloc::AllocError);
            }
        }
    }
    Ok(words)
}

/// The answer to these words, between the input and the output of the process.
fn start<L: Ledger>(blank: Blank, rt: &HostRuntime, words: &Vec<String>) -> Status
    requires name { blank.name ≡ L.name }
    requires parts { blank.parts ≡ L.parts }
    requires some { 0 < blank.parts }
    // The answer is one of `run` to these words, which has counted no step before.
    ensures answer { (before : Around) × (after : Around) × (before.steps ≡ 0)
        × Runs (map string_bytes words.now.items) before after result }
{
    let mut steps = Steps::<L>::new(blank);
    let mut source = RealIn::new(rt.reader());
    let mut sink = RealOut::new(io::writer(rt));
    run(rt.alloc(), words, &mut source, &mut sink, &mut steps)
}

/// The exit status that reports the answer.
fn ended(status: Status) -> ExitCode
    // The exit status is that of the answer.
    ensures { exit_status result ≡ code_of status }
{
    ExitCode::from(status.code())
}

fn main(rt: HostRuntime) -> ExitCode {
    let Ok(words) = words(&rt) else {
        return ended(Status::OutOfMemory);
    };
    ended(start::<Brand>(Blank::new(1), &rt, &words))
}
