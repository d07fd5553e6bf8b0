//! The two calls.
ghost use Rattle.std.specs.Prelude.{◌≡◌, ◌<◌, [], length, None, Some, Err, IfOk, OnOk, OnErr, IfErr, IfSome, IsErrOf};
ghost use Rattle.std.specs.Prelude.{MatchResult};
ghost use Rattle.plan_desk.specs.Desk.{ShowsSame, after_take_in};
ghost use Rattle.plan_desk.specs.Faults.{IsReadFaultOf};
ghost use Rattle.plan_desk.specs.Contents.{WhereToldHolds};
ghost use Rattle.instance_model.specs.Tables.{Tables};
ghost use Rattle.instance_shape.specs.Ranges.{AreStandard, IsSlack};
ghost use Rattle.instance_shape.specs.Defined.{Defines};
ghost use Rattle.instance_shape.specs.FileFaults.{FileFault, HasFileFault};
ghost use Rattle.json_events.specs.Pulls.{IsUnfinished};
ghost use Rattle.instance_model.specs.declared.limits.Limits.{Limits as Sizes};
ghost use Rattle.instance_read.specs.Faults.{fault_of};
ghost use Rattle.instance_read.specs.Fed.{HasRead, IsUnfed};
ghost use Rattle.instance_read.specs.Reading.{TellsFault, ReadsFile, LeavesFile, StopsAt, CountsStreamFault};

use crate::fault::{InstanceFault, StreamFault};
use crate::pieces::feed_all;
use crate::reader::Reader;
use crate::stream::read_rest;
use fixed_num::Fixed;
use instance_model::{Instance, Limits};
use plan_desk::Desk;
use std::alloc::Global;

/// The instance of a file's bytes: each upper limit of a band is raised by the slack, and each lower one lowered. The
/// slack is from 0 to 10^9 counts of 10^-12, and no limit is above the standard one.
///
/// # Errors
///
/// The first fault of the bytes, in the order of `InstanceFault`. `Memory` may come in place of any answer.
pub fn read_instance(
    alloc: Global,
    limits: &Limits,
    slack: Fixed,
    bytes: &[u8],
) -> Result<Instance, InstanceFault>
    requires limits { AreStandard limits.now }
    requires slack { IsSlack slack }
    ensures built { IfOk result (λ inst. Defines limits.now slack bytes.now inst) }
    ensures fault { IfErr result (TellsFault limits.now bytes.now) }

    // Each instance is read, and each fault is told, unless memory ran out.
    ensures each_instance { (inst : Tables) → Defines limits.now slack bytes.now inst
        → MatchResult result (λ read. read ≡ inst) (λ fault. fault_of fault ≡ None) }
    ensures each_fault { (first : FileFault) → HasFileFault limits.now bytes.now first
        → MatchResult result (λ read. ⊥) (λ fault. IfSome (fault_of fault) (λ told. told ≡ first)) }
{
    let mut reader = Reader::make(alloc, limits)?;
    let answer = read_bytes(alloc, &mut reader, slack, bytes);
    reader.close();
    answer
}

/// The instance of bytes by a reader to which nothing was fed.
fn read_bytes(
    alloc: Global,
    reader: &mut Reader,
    slack: Fixed,
    bytes: &[u8],
) -> Result<Instance, InstanceFault>
    requires unfinished { IsUnfinished reader.old.pull }
    requires unfed { IsUnfed reader.old }
    requires slack { IsSlack slack }
    ensures built { (sizes : Sizes) → AreStandard sizes → HasRead sizes reader.old []
        → IfOk result (λ inst. Defines sizes slack bytes.now inst) }
    ensures fault { (sizes : Sizes) → AreStandard sizes → HasRead sizes reader.old []
        → IfErr result (TellsFault sizes bytes.now) }
{
    feed_all(reader, bytes)?;
    reader.conclude(alloc, slack)
}

/// Reads the instance of the file of this name, piece by piece.
///
/// The answer is that of `read_all` followed by `read_instance`: after a fault of the text the file is read on to its
/// end, or past its limit, so `Failed` and `TooLong` win. A file that is too long is left at most a piece of 2^16 bytes
/// behind its limit.
pub fn read_instance_from<D: Desk>(
    alloc: Global,
    limits: &Limits,
    slack: Fixed,
    desk: &mut D,
    name: &str,
) -> Result<Instance, StreamFault>
    requires limits { AreStandard limits.now }
    requires slack { IsSlack slack }
    ensures built { IfOk result (λ inst. ReadsFile name.now limits.now.instance_bytes (D.shows desk.old)
        (λ bytes. Defines limits.now slack bytes inst)) }
    ensures fault { (fault : InstanceFault) → result ≡ Err (StreamFault.Text fault)
        → ReadsFile name.now limits.now.instance_bytes (D.shows desk.old)
        (λ bytes. (told : FileFault) × (fault_of fault ≡ Some told) × HasFileFault limits.now bytes told) }
    ensures too_long { IsErrOf result StreamFault.TooLong
        → WhereToldHolds (D.shows desk.old) name.now (λ held. limits.now.instance_bytes < length held) }

    // An instance was read to the end of its file, and so was a text with a fault. A failure changes no file and says
    // nothing.
    ensures ok { OnOk result (ShowsSame (D.shows desk.new) (after_take_in name.now [] (D.shows desk.old))) }
    ensures text { (fault : InstanceFault) → result ≡ Err (StreamFault.Text fault)
        → ShowsSame (D.shows desk.new) (after_take_in name.now [] (D.shows desk.old)) }
    ensures err { OnErr result (LeavesFile name.now limits.now.instance_bytes (D.shows desk.old) (D.shows desk.new)) }
    // no more than the limit was read, unless the file is too long
    ensures stops { IfErr result (StopsAt name.now limits.now.instance_bytes (D.shows desk.old) (D.shows desk.new)) }

    // `Failed` comes only of one call that failed, and no other answer of any.
    ensures faults { CountsStreamFault (D.shows desk.old) (D.shows desk.new) (IsReadFaultOf name.now) result }
{
    desk.take_in(name)?;
    let mut reader = Reader::make(alloc, limits)?;
    let answer = read_rest(alloc, desk, &mut reader, limits.instance_bytes, slack);
    reader.close();
    answer
}
