//! What reads files, writes files and speaks.
ghost use Rattle.std.specs.Prelude.{IsTrue};
ghost use Rattle.plan_desk.specs.Desk.{Shown, TellsNames};
ghost use Rattle.plan_desk.specs.Calls.{TakesIn, Reads, PutsOut, Writes, FinishesOut, Speaks};

use crate::Failed;

/// A device: one file at a time is read, one is written, and bytes are said.
///
/// A desk tells what it shows or leaves parts of it untold; what is told stays told. A desk that tells its last fault,
/// or what files hold, tells the names of its files too, so that what is written to one is told. A call that answers
/// `Failed` adds one to the count of faults and makes itself the last fault. A failed `say` adds one to the count of
/// failed `say`s too. No other call changes any of these. No call changes a file but the one that is open for writing.
pub trait Desk {
    /// Its files, what was said, and its faults.
    ghost shows: { Self → Shown };

    /// Takes in a file from its first byte on. A missing file is a failure, and after a failure no file is taken in.
    fn take_in(&mut self, name: &str) -> Result<(), Failed>
        ensures { TakesIn name.now (shows self.old) (shows self.new) result };

    /// Reads the next bytes of the file that is taken in to the front of the buffer, and answers how many. With room in
    /// the buffer 0 is the end of the file. After a failure nothing was read.
    fn read(&mut self, buf: &mut [u8]) -> Result<usize, Failed>
        requires taken { IsTrue (shows self.old).input.taken }
        ensures { Reads buf.new (shows self.old) (shows self.new) result };

    /// Makes a file empty and opens it for writing. Failed or not, no file is taken in after it, and one that was open
    /// before isn't any more and keeps what was written. A failure changes no file.
    fn put_out(&mut self, name: &str) -> Result<(), Failed>
        ensures { PutsOut name.now (shows self.old) (shows self.new) result };

    /// Writes the first bytes of the piece to the file that is open, and answers how many: at least one, where the
    /// piece has one. After a failure nothing was written, and the file is still open.
    fn write(&mut self, piece: &[u8]) -> Result<usize, Failed>
        requires opened { IsTrue (shows self.old).output.opened }
        ensures { Writes piece.now (shows self.old) (shows self.new) result };

    /// Ends the file that is open. Failed or not, none is open after it, and the file holds what was written.
    fn finish_out(&mut self) -> Result<(), Failed>
        requires opened { IsTrue (shows self.old).output.opened }
        ensures { FinishesOut (shows self.old) (shows self.new) result };

    /// Says the first bytes of the piece, and answers how many: at least one, where the piece has one. After a failure
    /// nothing was said.
    fn say(&mut self, piece: &[u8]) -> Result<usize, Failed>
        ensures { Speaks piece.now (shows self.old) (shows self.new) result };

    /// The names of its files are told, where anything of them is.
    ghost names: { (desk : Self) → TellsNames (shows desk) };
}
