//! Files in memory.
ghost use Rattle.std.specs.Prelude.{◌≡◌, ◌<◌, ◌≤◌, ◌↔◌, ◌++◌, ◌∷◌, [], ◌||◌, drop, length, min, not, is_some, is_err};
ghost use Rattle.std.specs.Prelude.{IfOk, OnOk, OnErr, IsErr, IsSome, IsTrue, option_copied};
ghost use Rattle.plan_desk.specs.Calls.{TakesIn, Reads, PutsOut, Writes, FinishesOut, Speaks};
ghost use Rattle.plan_desk.specs.declared.call.DeskCall.{DeskCall};

use crate::due::is_listed;
use crate::fault::{FaultCounts, fail, named};
use crate::files::{LastFault, Listed, MemFile, Place};
use crate::find::{append, copy_part, find, held, put};
use crate::{Desk, DeskCall, Failed};
use std::alloc::{AllocError, Global};
use std::marker::Model;

/// Files in memory. It tells everything, but a last fault of `take_in` or `put_out` whose name has more than 255 bytes.
pub struct MemDesk {
    alloc: Global,
    files: Vec<MemFile>,
    taken: Option<Place>,
    writing: Option<usize>,
    spoken: Vec<u8>,
    most: usize,
    listed: Vec<Listed>,
    made: [u64; 6],
    faults: FaultCounts,
    last: Option<LastFault>,
}

impl Model for MemDesk {
    ghost use Rattle.std.specs.Prelude.{option_map};
    ghost use Rattle.plan_desk.specs.Mem.{MemState, fault_of, IsConsistent};

    ghost Value = { MemState };

    ghost view = { λ d. record {
      files = d.files.items;
      taken = d.taken;
      writing = d.writing;
      spoken = d.spoken.items;
      most = d.most;
      listed = d.listed.items;
      made = d.made;
      faults = d.faults;
      last = option_map (fault_of d.files.items) d.last;
    } };

    ghost invariant = { λ d. IsConsistent d.files.items d.taken d.writing d.last d.most };
}

/// A call, so that a proof doesn't go through all fields wherever a desk is dropped.
impl Drop for MemDesk {
    fn drop(self) {
        let MemDesk {
            alloc: _,
            files: _,
            taken: _,
            writing: _,
            spoken: _,
            most: _,
            listed: _,
            made: _,
            faults: _,
            last: _,
        } = self;
    }
}

impl MemDesk {
    ghost use Rattle.plan_desk.specs.Mem.{mem_shows, empty_state, after_put_file, KeepsPlan, held_by};

    /// A desk with no file, of which no call is to fail. It takes no memory.
    pub fn make(alloc: Global) -> Self
        ensures { result ≡ empty_state }
    {
        MemDesk {
            alloc,
            files: Vec::new(alloc),
            taken: None,
            writing: None,
            spoken: Vec::new(alloc),
            most: usize::MAX,
            listed: Vec::new(alloc),
            made: [0; 6],
            faults: FaultCounts {
                count: 0,
                of_say: 0,
            },
            last: None,
        }
    }

    /// What the file of this name holds. It takes no memory.
    pub fn file(&self, name: &str) -> Option<&[u8]>
        ensures { option_copied result ≡ held_by self.now.files name.now }
    {
        held(&self.files, name)
    }

    /// What was said. It takes no memory.
    pub fn spoken(&self) -> &[u8]
        ensures { result.now ≡ self.now.spoken }
    {
        &self.spoken
    }

    /// Makes the file of this name hold just these bytes, whether it was there or not, as one that was never put out.
    /// No file is taken in or open after it.
    pub fn put_file(&mut self, name: &str, bytes: &[u8]) -> Result<(), AllocError>
        ensures ok { OnOk result (mem_shows self.new ≡ after_put_file name.now bytes.now (mem_shows self.old)) }
        ensures err { OnErr result (self.new ≡ self.old) }
        ensures plan { KeepsPlan self.old self.new }
    {
        let copy = Vec::from_slice(self.alloc, bytes)?;
        put(self.alloc, &mut self.files, name, copy, false)?;
        self.taken = None;
        self.writing = None;
        Ok(())
    }

    /// Lets the nth call of a kind fail, counted from 1 since `make`.
    pub fn fail_at(&mut self, call: DeskCall, nth: u32) -> Result<(), AllocError>
        ensures ok { OnOk result
            (self.new ≡ record self.old { listed = self.old.listed ++ record { call = call; nth = nth } ∷ [] }) }
        ensures err { OnErr result (self.new ≡ self.old) }
    {
        self.listed.push(Listed { call, nth })?;
        Ok(())
    }

    /// Sets the largest piece of a read. It takes no memory.
    pub fn read_by(&mut self, most: usize)
        requires { 0 < most }
        ensures { self.new ≡ record self.old { most = most } }
    {
        self.most = most;
    }
}

impl Desk for MemDesk {
    ghost use Rattle.plan_desk.specs.Mem.{mem_shows, is_due, held_by, unread_of, CountsCall};
    ghost use Rattle.plan_desk.specs.Names.{mem_names};

    ghost shows = { mem_shows };

    ghost names = { mem_names };

    fn take_in(&mut self, name: &str) -> Result<(), Failed>
        ensures call { TakesIn name.now (mem_shows self.old) (mem_shows self.new) result }
        ensures exact { is_err result
            ≡ (is_due self.old DeskCall.TakeIn || not (is_some (held_by self.old.files name.now))) }
        ensures told { OnErr result (IsSome self.new.last ↔ (length name.now ≤ 255)) }
        ensures count { CountsCall DeskCall.TakeIn self.old self.new result }
    {
        if !is_listed(&mut self.made, &self.listed, DeskCall::TakeIn) {
            if let Some(file) = find(&self.files, name) {
                self.taken = Some(Place { file, from: 0 });
                return Ok(());
            }
        }
        self.taken = None;
        let fault = named(DeskCall::TakeIn, name);
        Err(fail(&mut self.faults, &mut self.last, DeskCall::TakeIn, fault))
    }

    fn read(&mut self, buf: &mut [u8]) -> Result<usize, Failed>
        requires taken { IsTrue (mem_shows self.old).input.taken }
        ensures call { Reads buf.new (mem_shows self.old) (mem_shows self.new) result }
        ensures exact { is_err result ≡ is_due self.old DeskCall.Read }
        ensures piece { IfOk result
            (λ n. n ≡ min self.old.most (min (length (unread_of self.old.files self.old.taken)) (length buf.new))) }
        ensures behind { IfOk result (λ n. drop n buf.new ≡ drop n buf.old) }
        ensures kept { OnErr result (buf.new ≡ buf.old) }
        ensures told { OnErr result (IsSome self.new.last) }
        ensures count { CountsCall DeskCall.Read self.old self.new result }
    {
        let Some(place) = self.taken else {
            unreachable!();
        };
        if is_listed(&mut self.made, &self.listed, DeskCall::Read) {
            let fault = Some(LastFault::OfFile(DeskCall::Read, place.file));
            return Err(fail(&mut self.faults, &mut self.last, DeskCall::Read, fault));
        }
        let n = copy_part(&self.files, place.file, place.from, self.most, buf);
        self.taken = Some(Place {
            file: place.file,
            from: place.from + n,
        });
        Ok(n)
    }

    fn put_out(&mut self, name: &str) -> Result<(), Failed>
        ensures call { PutsOut name.now (mem_shows self.old) (mem_shows self.new) result }
        ensures listed { IsTrue (is_due self.old DeskCall.PutOut) → IsErr result }
        ensures there { IsSome (held_by self.old.files name.now) → is_err result ≡ is_due self.old DeskCall.PutOut }
        ensures told { OnErr result (IsSome self.new.last ↔ (length name.now ≤ 255)) }
        ensures count { CountsCall DeskCall.PutOut self.old self.new result }
    {
        self.taken = None;
        self.writing = None;
        if is_listed(&mut self.made, &self.listed, DeskCall::PutOut) {
            let fault = named(DeskCall::PutOut, name);
            return Err(fail(&mut self.faults, &mut self.last, DeskCall::PutOut, fault));
        }
        match put(
            self.alloc,
            &mut self.files,
            name,
            Vec::new(self.alloc),
            true,
        ) {
            Ok(at) => {
                self.writing = Some(at);
                Ok(())
            }
            Err(_) => {
                let fault = named(DeskCall::PutOut, name);
                Err(fail(&mut self.faults, &mut self.last, DeskCall::PutOut, fault))
            }
        }
    }

    fn write(&mut self, piece: &[u8]) -> Result<usize, Failed>
        requires opened { IsTrue (mem_shows self.old).output.opened }
        ensures call { Writes piece.now (mem_shows self.old) (mem_shows self.new) result }
        ensures listed { IsTrue (is_due self.old DeskCall.Write) → IsErr result }
        ensures whole { IfOk result (λ n. n ≡ length piece.now) }
        ensures told { OnErr result (IsSome self.new.last) }
        ensures count { CountsCall DeskCall.Write self.old self.new result }
    {
        let Some(at) = self.writing else {
            unreachable!();
        };
        if is_listed(&mut self.made, &self.listed, DeskCall::Write) {
            let fault = Some(LastFault::OfFile(DeskCall::Write, at));
            return Err(fail(&mut self.faults, &mut self.last, DeskCall::Write, fault));
        }
        match append(&mut self.files, at, piece) {
            Ok(()) => Ok(piece.len()),
            Err(_) => {
                let fault = Some(LastFault::OfFile(DeskCall::Write, at));
                Err(fail(&mut self.faults, &mut self.last, DeskCall::Write, fault))
            }
        }
    }

    fn finish_out(&mut self) -> Result<(), Failed>
        requires opened { IsTrue (mem_shows self.old).output.opened }
        ensures call { FinishesOut (mem_shows self.old) (mem_shows self.new) result }
        ensures exact { is_err result ≡ is_due self.old DeskCall.FinishOut }
        ensures told { OnErr result (IsSome self.new.last) }
        ensures count { CountsCall DeskCall.FinishOut self.old self.new result }
    {
        let Some(at) = self.writing else {
            unreachable!();
        };
        self.writing = None;
        if is_listed(&mut self.made, &self.listed, DeskCall::FinishOut) {
            let fault = Some(LastFault::OfFile(DeskCall::FinishOut, at));
            return Err(fail(&mut self.faults, &mut self.last, DeskCall::FinishOut, fault));
        }
        Ok(())
    }

    fn say(&mut self, piece: &[u8]) -> Result<usize, Failed>
        ensures call { Speaks piece.now (mem_shows self.old) (mem_shows self.new) result }
        ensures listed { IsTrue (is_due self.old DeskCall.Say) → IsErr result }
        ensures whole { IfOk result (λ n. n ≡ length piece.now) }
        ensures told { OnErr result (IsSome self.new.last) }
        ensures count { CountsCall DeskCall.Say self.old self.new result }
    {
        if is_listed(&mut self.made, &self.listed, DeskCall::Say) {
            return Err(fail(
                &mut self.faults,
                &mut self.last,
                DeskCall::Say,
                Some(LastFault::Said),
            ));
        }
        match self.spoken.extend_from_slice(piece) {
            Ok(()) => Ok(piece.len()),
            Err(_) => Err(fail(
                &mut self.faults,
                &mut self.last,
                DeskCall::Say,
                Some(LastFault::Said),
            )),
        }
    }
}
