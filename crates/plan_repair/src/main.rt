//! The second program: repairs plans with few changes, and checks certificates of how few there are.
//!
//! `run_repair` is the whole program over any device; `main` runs it over real files and standard output.
#![tactic(auto)]

ghost use Rattle.std.specs.Prelude.{◌≡◌, ◌≢◌};
ghost use Rattle.std.specs.IoError.{error_kind};
ghost use Rattle.std.specs.declared.io.ErrorKind.TheVariants.{OutOfMemory};

mod laws;
mod run;
mod words;

pub use laws::{commands_go_by_name, repairs_are_complete};
use plan_desk::RealDesk;
pub use run::run_repair;
use std::alloc::Global;
use std::process::ExitCode;
use std::{env, io};

fn main(rt: HostRuntime) -> ExitCode {
    let alloc = rt.alloc();
    match given_words(&rt, alloc) {
        Ok(words) => ExitCode::from(run_repair(alloc, &words, &mut RealDesk::make(rt, alloc))),
        Err(error) => ExitCode::from(no_words_status(&error)),
    }
}

/// The words after the program's name.
fn given_words(rt: &HostRuntime, alloc: Global) -> io::Result<Vec<String>> {
    let mut words = Vec::new(alloc);
    for word in env::args(rt)?.skip(1) {
        words.push(word)?;
    }
    Ok(words)
}

/// The status where the system refuses the words.
fn no_words_status(error: &io::Error) -> u8
    ensures memory { error_kind error.now ≡ OutOfMemory → result ≡ 11 }
    ensures other { error_kind error.now ≢ OutOfMemory → result ≡ 13 }
{
    match error.kind() {
        io::ErrorKind::OutOfMemory => 11,
        _ => 13,
    }
}
