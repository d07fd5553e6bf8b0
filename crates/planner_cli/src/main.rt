//! The program: makes, judges, replays and reports plans, and checks certificates, as its words ask.
//!
//! `run` is the whole program over any device; `main` runs it over real files and standard output.
#![tactic(auto)]

ghost use Rattle.std.specs.Prelude.{◌≡◌, ◌≢◌};
ghost use Rattle.std.specs.IoError.{error_kind};
ghost use Rattle.std.specs.declared.io.ErrorKind.TheVariants.{OutOfMemory};

mod laws;
mod run;
mod words;

pub use laws::{commands_go_by_name, runs_are_complete};
use plan_desk::RealDesk;
pub use run::{rebound_within, roll_within, run, run_with};
use std::alloc::Global;
use std::process::ExitCode;
use std::{env, io};

fn main(rt: HostRuntime) -> ExitCode {
    let alloc = rt.alloc();
    match given_words(&rt, alloc) {
        Ok(words) => ExitCode::from(run(alloc, &words, &mut RealDesk::make(rt, alloc))),
        Err(error) => ExitCode::from(no_words_status(&error)),
    }
}

/// The words after the program's name.
fn given_words(rt: &HostRuntime, alloc: Global) -> io::Result<Vec<String>> {
    let mut words = Vec::new(alloc);
    for word in env::args(rt)?.skip(1) {
        words.push(word)?;
    }
    Ok(words)
}

/// The status where the system refuses the words.
fn no_words_status(error: &io::Error) -> u8
    ensures memory { error_kind error.now ≡ OutOfMemory → result ≡ 11 }
    ensures other { error_kind error.now ≢ OutOfMemory → result ≡ 13 }
{
    match error.kind() {
        io::ErrorKind::OutOfMemory => 11,
        _ => 13,
    }
}
