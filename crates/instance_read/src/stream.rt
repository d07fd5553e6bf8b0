//! Reading an instance from a device.

ghost use Rattle.std.specs.Prelude.{◌≡◌, ◌<◌, ◌≤◌, ℕ, [], length, Some, Err, IfOk, OnOk, IfSome, IsErrOf, IsTrue};
ghost use Rattle.std.specs.Prelude.{MatchResult};
ghost use Rattle.json_events.specs.Pulls.{IsUnfinished};
ghost use Rattle.plan_desk.specs.Desk.{ShowsSame, after_read, all_read};
ghost use Rattle.plan_desk.specs.Contents.{IsCountAt};
ghost use Rattle.plan_desk.specs.Faults.{CountsReadFault, IsFaultOf};
ghost use Rattle.plan_desk.specs.declared.call.DeskCall.{DeskCall};
ghost use Rattle.instance_model.specs.declared.limits.Limits.{Limits as Sizes};
ghost use Rattle.instance_shape.specs.Defined.{Defines};
ghost use Rattle.instance_shape.specs.FileFaults.{FileFault, HasFileFault};
ghost use Rattle.instance_shape.specs.Ranges.{AreStandard, IsSlack};
ghost use Rattle.instance_read.specs.Faults.{fault_of};
ghost use Rattle.instance_read.specs.Fed.{HasRead, HasRest, IsUnfed};
ghost use Rattle.instance_read.specs.Reading.{CountsStreamFault, IsCountAt as IsStreamCountAt};

use crate::fault::{InstanceFault, StreamFault};
use crate::part_faults::of_bytes;
use crate::pieces::PIECE;
use crate::reader::Reader;
use fixed_num::Fixed;
use instance_model::Instance;
use plan_desk::{Desk, ReadFault};
use std::alloc::Global;

/// Feeds the rest of the file that is taken in to a reader, to the end of the file.
fn feed_rest<D: Desk>(desk: &mut D, reader: &mut Reader, limit: u64) -> Result<(), ReadFault>
    requires taken { IsTrue (D.shows desk.old).input.taken }
    requires unfinished { IsUnfinished reader.old.pull }
    ensures read { OnOk result
        (HasRest (D.shows desk.old).input.unread limit
        (λ bytes. (sizes : Sizes) → HasRead sizes reader.old [] → HasRead sizes reader.new bytes)) }
    ensures too_long { IsErrOf result ReadFault.TooLong
        → IfSome (D.shows desk.old).input.unread (λ rest. limit < length rest) }
    ensures end { OnOk result (ShowsSame (D.shows desk.new) (all_read (D.shows desk.old))) }
    ensures some_read { (n : ℕ) × MatchResult result (λ _. n ≤ limit) (λ fault. IsCountAt limit fault n)
        × ShowsSame (D.shows desk.new) (after_read n (D.shows desk.old)) }
    ensures faults { CountsReadFault (D.shows desk.old) (D.shows desk.new)
        (IsFaultOf DeskCall.Read (D.shows desk.old).input.name) result }
{
    let mut buf = [0u8; PIECE];
    let mut count: u64 = 0;
    'pieces: loop {
        let n = desk.read(&mut buf)?;
        if n == 0 {
            return Ok(());
        }
        if limit - count < n as u64 {
            return Err(ReadFault::TooLong);
        }
        reader.feed(&buf[..n])?;
        count += n as u64;
    }
}

/// The instance of the rest of the file that is taken in, by a reader to which nothing was fed.
pub fn read_rest<D: Desk>(
    alloc: Global,
    desk: &mut D,
    reader: &mut Reader,
    limit: u64,
    slack: Fixed,
) -> Result<Instance, StreamFault>
    requires taken { IsTrue (D.shows desk.old).input.taken }
    requires unfinished { IsUnfinished reader.old.pull }
    requires unfed { IsUnfed reader.old }
    requires slack { IsSlack slack }
    ensures built { (sizes : Sizes) → AreStandard sizes → HasRead sizes reader.old []
        → IfOk result
        (λ inst. HasRest (D.shows desk.old).input.unread limit (λ bytes. Defines sizes slack bytes inst)) }
    ensures fault { (sizes : Sizes) → AreStandard sizes → HasRead sizes reader.old []
        → (fault : InstanceFault) → result ≡ Err (StreamFault.Text fault)
        → HasRest (D.shows desk.old).input.unread limit
        (λ bytes. (told : FileFault) × (fault_of fault ≡ Some told) × HasFileFault sizes bytes told) }
    ensures too_long { IsErrOf result StreamFault.TooLong
        → IfSome (D.shows desk.old).input.unread (λ rest. limit < length rest) }
    ensures end { OnOk result (ShowsSame (D.shows desk.new) (all_read (D.shows desk.old))) }
    ensures text_end { (fault : InstanceFault) → result ≡ Err (StreamFault.Text fault)
        → ShowsSame (D.shows desk.new) (all_read (D.shows desk.old)) }
    ensures some_read { (n : ℕ) × MatchResult result (λ _. n ≤ limit) (λ fault. IsStreamCountAt limit fault n)
        × ShowsSame (D.shows desk.new) (after_read n (D.shows desk.old)) }
    ensures faults { CountsStreamFault (D.shows desk.old) (D.shows desk.new)
        (IsFaultOf DeskCall.Read (D.shows desk.old).input.name) result }
{
    match feed_rest(desk, reader, limit) {
        Ok(()) => {}
        Err(ReadFault::Failed) => return Err(StreamFault::Failed),
        Err(ReadFault::TooLong) => return Err(StreamFault::TooLong),
        Err(ReadFault::Memory) => return Err(StreamFault::Memory),
    }
    match reader.conclude(alloc, slack) {
        Ok(instance) => Ok(instance),
        Err(fault) => Err(of_bytes(fault)),
    }
}
