//! A file that a text is written to.
ghost use Rattle.std.specs.Prelude.{◌≡◌, IsTrue};

use crate::room::Room;
use crate::sink::Sink;
use plan_desk::{Desk, Failed, write_all, write_pieces};

/// The file that is open at a desk. Bytes are kept until there are some thousands of them; after a failed write nothing
/// more is written.
#[derive(Drop)]
pub struct OpenFile<'a, D: Desk> {
    desk: &'a mut D,
    room: Room,
    failed: bool,
}

impl<'a, D: Desk> OpenFile<'a, D> {
    ghost use Rattle.std.specs.Prelude.{[], false};
    ghost use Rattle.instance_writer.specs.Sinks.{TakesText, EndsAs};

    pub fn new(desk: &'a mut D) -> Self
        ensures same_reference { result.desk.ghost_name ≡ desk.entry.ghost_name }
        ensures shown { result.desk.now ≡ desk.old }
        ensures kept { result.room ≡ [] }
        ensures failed { result.failed ≡ false }
    {
        OpenFile {
            desk,
            room: Room::empty(),
            failed: false,
        }
    }

    /// Writes what is kept, and then the piece.
    fn write_out(&mut self, piece: &[u8])
        requires opened { IsTrue (D.shows self.old.desk.now).output.opened }
        requires good { self.old.failed ≡ false }
        ensures same_reference { self.new.desk.ghost_name ≡ self.old.desk.ghost_name }
        ensures opened { IsTrue (D.shows self.new.desk.now).output.opened }
        ensures text { TakesText piece.now
            (record { shown = D.shows self.old.desk.now; kept = self.old.room; failed = self.old.failed })
            (record { shown = D.shows self.new.desk.now; kept = self.new.room; failed = self.new.failed }) }
    {
        match write_pieces(self.desk, &[self.room.bytes(), piece]) {
            Ok(()) => self.room.clear(),
            Err(_) => self.failed = true,
        }
    }

    /// Writes the rest.
    pub fn end(&mut self) -> Result<(), Failed>
        requires opened { IsTrue (D.shows self.old.desk.now).output.opened }
        ensures same_reference { self.new.desk.ghost_name ≡ self.old.desk.ghost_name }
        ensures text { EndsAs self.old.failed
            (record { shown = D.shows self.old.desk.now; kept = self.old.room; failed = self.old.failed })
            (D.shows self.new.desk.now) result }
    {
        if self.failed {
            return Err(Failed);
        }
        write_all(self.desk, self.room.bytes())
    }
}

impl<D: Desk> Sink for OpenFile<'_, D> {
    ghost use Rattle.std.specs.Prelude.{refl};
    ghost use Rattle.std.proofs.Common.{◌∙◌};
    ghost use Rattle.instance_writer.specs.Sinks.{TakesText};
    ghost use Rattle.instance_writer.specs.SinkLaws.{takes_none, takes_more};

    ghost IsReady = { λ f. IsTrue (D.shows f.desk.now).output.opened };

    ghost Takes = { λ text old new. TakesText text
        (record { shown = D.shows old.desk.now; kept = old.room; failed = old.failed })
        (record { shown = D.shows new.desk.now; kept = new.room; failed = new.failed })
        × (new.desk.ghost_name ≡ old.desk.ghost_name) };

    ghost takes_none = { λ f.
        (takes_none (record { shown = D.shows f.desk.now; kept = f.room; failed = f.failed }), refl) };

    ghost takes_more = { λ a b f g h first next. (
      takes_more a b
          (record { shown = D.shows f.desk.now; kept = f.room; failed = f.failed })
          (record { shown = D.shows g.desk.now; kept = g.room; failed = g.failed })
          (record { shown = D.shows h.desk.now; kept = h.room; failed = h.failed }) first.0 next.0,
      next.1 ∙ first.1,
    ) };

    fn put(&mut self, piece: &[u8]) {
        if self.failed {
            return;
        }
        if self.room.fits(piece) {
            self.room.push(piece);
        } else {
            self.write_out(piece);
        }
    }
}
