//! What a run leaves of which one call failed, from the kind of the call alone.

use crate::failures::commands::{Command, FILES, OLD, PIECE, Word};
use plan_desk::{DeskCall, MemDesk};
use std::alloc::{AllocError, Global};

/// A run: its status, and what it left.
#[derive(Drop)]
pub(crate) struct Ran {
    pub status: u8,
    pub desk: MemDesk,
}

/// What a file holds that is written.
#[derive(Clone, Copy)]
enum Held {
    Old,
    /// A first part of its text, but not all.
    Part,
    Whole,
}

/// A run of which one call is to fail, beside a run without a failing call.
#[derive(Clone, Copy)]
pub(crate) struct Case<'a> {
    pub command: Command,
    pub clean: &'a Ran,
    pub ran: &'a Ran,
}

impl Case<'_> {
    /// Whether the run left what is due where a call of this kind failed, after so many of its kind.
    pub fn is_due(&self, alloc: Global, call: DeskCall, before: usize) -> Result<bool, AllocError> {
        match call {
            DeskCall::TakeIn => self.is_unread(alloc, self.command.inputs().get(before).copied()),
            DeskCall::Read => self.is_unread(alloc, word_read(self.command, before)),
            DeskCall::PutOut => self.is_unwritten(alloc, before, Held::Old),
            DeskCall::Write => self.is_cut(alloc),
            DeskCall::FinishOut => self.is_unwritten(alloc, before, Held::Whole),
            DeskCall::Say => Ok(self.is_unsaid()),
        }
    }

    /// Whether a run in which the later calls fail too left the same files and said the same; where a file couldn't be
    /// read or written, the line of that can't be said in it.
    pub fn is_last(&self, call: DeskCall, on: &Ran) -> bool {
        let same_text = if call == DeskCall::Say {
            on.status == self.ran.status && on.desk.spoken() == self.ran.desk.spoken()
        } else {
            on.status == 8 && on.desk.spoken().is_empty()
        };
        same_text && hold_the_same(&on.desk, &self.ran.desk)
    }

    /// Whether the run left just what the one without a failing call did.
    pub fn is_clean(&self) -> bool {
        self.ran.status == self.clean.status
            && self.ran.desk.spoken() == self.clean.desk.spoken()
            && self.keeps_others()
            && self.are_written(None, Held::Whole)
    }

    /// The file of this word could not be read: that is said, and all files are as they were.
    fn is_unread(&self, alloc: Global, word: Option<Word>) -> Result<bool, AllocError> {
        let Some((number, _)) = word else {
            return Ok(false);
        };
        let line = format!(in alloc; "refused read {number}\n")?;
        Ok(self.ran.status == 7 && self.says(line.as_str()) && are_old(&self.ran.desk))
    }

    /// The nth file could not be written.
    fn is_unwritten(&self, alloc: Global, nth: usize, held: Held) -> Result<bool, AllocError> {
        match self.command.outputs().get(nth).copied() {
            Some((number, _)) => self.stops_at(alloc, number, held),
            None => Ok(false),
        }
    }

    /// One of the files could not be written to its end.
    fn is_cut(&self, alloc: Global) -> Result<bool, AllocError> {
        for (number, _) in self.command.outputs() {
            if self.stops_at(alloc, *number, Held::Part)? {
                return Ok(true);
            }
        }
        Ok(false)
    }

    /// The file of this word could not be written: that is said, and it holds this.
    fn stops_at(&self, alloc: Global, number: u64, held: Held) -> Result<bool, AllocError> {
        let line = format!(in alloc; "refused write {number}\n")?;
        Ok(
            self.ran.status == 8
                && self.says(line.as_str())
                && self.keeps_others()
                && self.are_written(Some(number), held),
        )
    }

    /// A first part of the report was said, but not all, and all files are whole.
    fn is_unsaid(&self) -> bool {
        let said = self.ran.desk.spoken();
        let report = self.clean.desk.spoken();
        self.ran.status == 8
            && said.len() < report.len()
            && report.starts_with(said)
            && self.keeps_others()
            && self.are_written(None, Held::Whole)
    }

    fn says(&self, line: &str) -> bool {
        self.ran.desk.spoken() == line.as_bytes()
    }

    /// The files before that of this word are whole, those behind it old, and it holds this itself.
    fn are_written(&self, stop: Option<u64>, held: Held) -> bool {
        let mut stopped = false;
        for (number, name) in self.command.outputs() {
            let due = if stopped {
                Held::Old
            } else if stop == Some(*number) {
                stopped = true;
                held
            } else {
                Held::Whole
            };
            if !self.is_held(name, due) {
                return false;
            }
        }
        true
    }

    fn is_held(&self, name: &str, held: Held) -> bool {
        let (Some(bytes), Some(whole)) = (self.ran.desk.file(name), self.clean.desk.file(name))
        else {
            return false;
        };
        match held {
            Held::Old => bytes == OLD.as_bytes(),
            Held::Part => bytes.len() < whole.len() && whole.starts_with(bytes),
            Held::Whole => bytes == whole,
        }
    }

    /// The files that the command doesn't write are as they were.
    fn keeps_others(&self) -> bool {
        for (name, text) in FILES {
            if !is_output(self.command, name) && !holds(&self.ran.desk, name, text) {
                return false;
            }
        }
        true
    }
}

fn is_output(command: Command, name: &str) -> bool {
    for (_, output) in command.outputs() {
        if *output == name {
            return true;
        }
    }
    false
}

/// Whether the run makes no further call of this kind after so many; for a write and for what is said, whether so many
/// are enough.
pub(crate) fn are_all(command: Command, call: DeskCall, count: usize) -> bool {
    let outputs = command.outputs().len();
    match call {
        DeskCall::TakeIn => count == command.inputs().len(),
        DeskCall::Read => word_read(command, count).is_none(),
        DeskCall::PutOut | DeskCall::FinishOut => count == outputs,
        DeskCall::Write => outputs <= count && (0 < outputs || count == 0),
        DeskCall::Say => 0 < count,
    }
}

/// Whether all files are as they were.
fn are_old(desk: &MemDesk) -> bool {
    for (name, text) in FILES {
        if !holds(desk, name, text) {
            return false;
        }
    }
    true
}

/// Whether all files are alike.
fn hold_the_same(a: &MemDesk, b: &MemDesk) -> bool {
    for (name, _) in FILES {
        if a.file(name) != b.file(name) {
            return false;
        }
    }
    true
}

fn holds(desk: &MemDesk, name: &str, text: &str) -> bool {
    match desk.file(name) {
        Some(bytes) => bytes == text.as_bytes(),
        None => false,
    }
}

/// The file of the read after so many: each file is read by pieces, and once more at its end.
fn word_read(command: Command, before: usize) -> Option<Word> {
    let mut left = before;
    for word in command.inputs() {
        let reads = reads_of(word.1);
        if left < reads {
            return Some(*word);
        }
        left -= reads;
    }
    None
}

/// How many reads the file of this name takes.
pub(crate) fn reads_of(name: &str) -> usize {
    for (other, text) in FILES {
        if other == name {
            return text.len().div_ceil(PIECE).saturating_add(1);
        }
    }
    0
}
