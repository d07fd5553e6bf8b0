//! Real files and standard output.
ghost use Rattle.std.specs.Prelude.{◌≡◌, IsTrue, is_err};
ghost use Rattle.plan_desk.specs.Calls.{TakesIn, Reads, PutsOut, Writes, FinishesOut, Speaks};
ghost use Rattle.plan_desk.specs.Faults.{count_after};

use crate::fault::{FaultCounts, count_fault};
use crate::{Desk, DeskCall, Failed};
use std::alloc::Global;
use std::fs;
use std::io::{Read, Write};
use std::marker::Model;
use std::rt::Files;

/// The files and the standard output of a runtime, which is trusted to pass on what the system did.
///
/// It tells no contents, no names and no last fault: only whether a file is taken in, whether one is open, and how many
/// calls and how many `say`s have failed.
#[derive(Drop)]
pub struct RealDesk<R: Files + Print + Drop> {
    rt: R,
    taken: Option<R::File>,
    writing: Option<R::File>,
    faults: FaultCounts,
}

impl<R: Files + Print + Drop> Model for RealDesk<R> {
    ghost use Rattle.std.specs.Prelude.{is_some};
    ghost use Rattle.plan_desk.specs.Real.{RealState};

    ghost Value = { RealState };

    ghost view = { λ d. record { taken = is_some d.taken; opened = is_some d.writing; faults = d.faults } };
}

impl<R: Files + Print + Drop> RealDesk<R> {
    ghost use Rattle.std.specs.Prelude.{false};

    /// A desk that has made no call. It takes no memory.
    pub fn make(rt: R, _alloc: Global) -> Self
        ensures { result ≡ record { taken = false; opened = false; faults = record { count = 0; of_say = 0 } } }
    {
        RealDesk {
            rt,
            taken: None,
            writing: None,
            faults: FaultCounts {
                count: 0,
                of_say: 0,
            },
        }
    }
}

impl<R: Files + Print + Drop> Desk for RealDesk<R> {
    ghost use Rattle.plan_desk.specs.Real.{real_shows};
    ghost use Rattle.plan_desk.specs.Names.{real_names};

    ghost shows = { real_shows };

    ghost names = { real_names };

    fn take_in(&mut self, name: &str) -> Result<(), Failed>
        ensures call { TakesIn name.now (real_shows self.old) (real_shows self.new) result }
        ensures count { self.new.faults.count ≡ count_after (is_err result) self.old.faults.count }
        ensures of_say { self.new.faults.of_say ≡ self.old.faults.of_say }
    {
        self.taken = None;
        match fs::open(&self.rt, name) {
            Ok(file) => {
                self.taken = Some(file);
                Ok(())
            }
            Err(_) => Err(count_fault(&mut self.faults, DeskCall::TakeIn)),
        }
    }

    fn read(&mut self, buf: &mut [u8]) -> Result<usize, Failed>
        requires taken { IsTrue self.old.taken }
        ensures call { Reads buf.new (real_shows self.old) (real_shows self.new) result }
        ensures count { self.new.faults.count ≡ count_after (is_err result) self.old.faults.count }
        ensures of_say { self.new.faults.of_say ≡ self.old.faults.of_say }
    {
        match &mut self.taken {
            Some(file) => match file.read(buf) {
                Ok(n) => Ok(n),
                Err(_) => Err(count_fault(&mut self.faults, DeskCall::Read)),
            },
            None => unreachable!(),
        }
    }

    fn put_out(&mut self, name: &str) -> Result<(), Failed>
        ensures call { PutsOut name.now (real_shows self.old) (real_shows self.new) result }
        ensures count { self.new.faults.count ≡ count_after (is_err result) self.old.faults.count }
        ensures of_say { self.new.faults.of_say ≡ self.old.faults.of_say }
    {
        self.taken = None;
        self.writing = None;
        match fs::create(&self.rt, name) {
            Ok(file) => {
                self.writing = Some(file);
                Ok(())
            }
            Err(_) => Err(count_fault(&mut self.faults, DeskCall::PutOut)),
        }
    }

    fn write(&mut self, piece: &[u8]) -> Result<usize, Failed>
        requires opened { IsTrue self.old.opened }
        ensures call { Writes piece.now (real_shows self.old) (real_shows self.new) result }
        ensures count { self.new.faults.count ≡ count_after (is_err result) self.old.faults.count }
        ensures of_say { self.new.faults.of_say ≡ self.old.faults.of_say }
    {
        match &mut self.writing {
            Some(file) => match file.write(piece) {
                // A device that takes nothing has failed.
                Ok(n) if 0 < n || piece.is_empty() => Ok(n),
                _ => Err(count_fault(&mut self.faults, DeskCall::Write)),
            },
            None => unreachable!(),
        }
    }

    fn finish_out(&mut self) -> Result<(), Failed>
        requires opened { IsTrue self.old.opened }
        ensures call { FinishesOut (real_shows self.old) (real_shows self.new) result }
        ensures count { self.new.faults.count ≡ count_after (is_err result) self.old.faults.count }
        ensures of_say { self.new.faults.of_say ≡ self.old.faults.of_say }
    {
        let flushed = match self.writing.take() {
            Some(mut file) => file.flush(),
            None => unreachable!(),
        };
        match flushed {
            Ok(()) => Ok(()),
            Err(_) => Err(count_fault(&mut self.faults, DeskCall::FinishOut)),
        }
    }

    fn say(&mut self, piece: &[u8]) -> Result<usize, Failed>
        ensures call { Speaks piece.now (real_shows self.old) (real_shows self.new) result }
        ensures count { self.new.faults.count ≡ count_after (is_err result) self.old.faults.count }
        ensures of_say { self.new.faults.of_say ≡ count_after (is_err result) self.old.faults.of_say }
    {
        match self.rt.write_some(piece) {
            Ok(n) if 0 < n || piece.is_empty() => Ok(n),
            _ => Err(count_fault(&mut self.faults, DeskCall::Say)),
        }
    }
}
