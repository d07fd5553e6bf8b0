//! Loops over a desk, until a file is read or a piece is taken whole.
ghost use Rattle.std.specs.Prelude.{◌≡◌, ℕ, ◌+◌, ◌<◌, ◌≤◌, [], ◌++◌, length, vec_len, IfOk, OnOk, OnErr, IfErr, IfSome};
ghost use Rattle.std.specs.Prelude.{IsErrOf, IsTrue};
ghost use Rattle.std.specs.List.{flat_map};
ghost use Rattle.plan_desk.specs.Desk.{ShowsSame, after_take_in, after_read, all_read};
ghost use Rattle.plan_desk.specs.Faults.{CountsReadFault, IsFaultOf, IsReadFaultOf};
ghost use Rattle.plan_desk.specs.Written.{WritesText, SaysText};
ghost use Rattle.plan_desk.specs.Contents.{WhereToldHolds, StopsReading, StopsAt, IsCountAt};
ghost use Rattle.plan_desk.specs.declared.call.DeskCall.{DeskCall};

use crate::{Bytes, Desk, Failed, ReadFault};
use std::alloc::Global;

/// How many bytes are read at a time.
const PIECE: usize = 65_536;

/// Reads a file whole, if it has at most `limit` bytes, by pieces of 64 KiB and in time linear in its length.
///
/// No further read is made once the limit is passed, so `TooLong` wins over a later failure of the desk.
pub fn read_all<D: Desk>(
    alloc: Global,
    desk: &mut D,
    name: &str,
    limit: u64,
) -> Result<Bytes, ReadFault>
    // The file was read to its end, and the bytes are those that it holds; they are within the limit.
    ensures ok { OnOk result (ShowsSame (D.shows desk.new) (after_take_in name.now [] (D.shows desk.old))) }
    ensures bytes { IfOk result (λ bytes. WhereToldHolds (D.shows desk.old) name.now (λ held. held ≡ bytes)) }
    ensures within { IfOk result (λ bytes. length bytes ≤ limit) }

    // A failure changes no file and says nothing, and no read was made once the limit was passed.
    ensures err { OnErr result (StopsReading name.now (D.shows desk.old) (D.shows desk.new)) }
    ensures stops { IfErr result (StopsAt name.now limit (D.shows desk.old) (D.shows desk.new)) }

    // `TooLong` comes only for a longer file, and `Failed` only of one call that failed.
    ensures too_long { IsErrOf result ReadFault.TooLong
        → WhereToldHolds (D.shows desk.old) name.now (λ held. limit < length held) }
    ensures faults { CountsReadFault (D.shows desk.old) (D.shows desk.new) (IsReadFaultOf name.now) result }
{
    desk.take_in(name)?;
    let mut bytes = Vec::new(alloc);
    read_rest(desk, &mut bytes, limit)?;
    Ok(Bytes::from_vec(bytes))
}

/// Writes the whole piece to the file that is open. Takes no memory.
pub fn write_all<D: Desk>(desk: &mut D, piece: &[u8]) -> Result<(), Failed>
    requires opened { IsTrue (D.shows desk.old).output.opened }
    ensures { WritesText piece.now (D.shows desk.old) (D.shows desk.new) result }
{
    let mut written = 0;
    while written < piece.len() {
        written += desk.write(&piece[written..])?;
    }
    Ok(())
}

/// Says the whole piece. Takes no memory.
pub fn say_all<D: Desk>(desk: &mut D, piece: &[u8]) -> Result<(), Failed>
    ensures { SaysText piece.now (D.shows desk.old) (D.shows desk.new) result }
{
    let mut said = 0;
    while said < piece.len() {
        said += desk.say(&piece[said..])?;
    }
    Ok(())
}

/// Writes the pieces, one behind another, to the file that is open. Takes no memory.
pub fn write_pieces<D: Desk>(desk: &mut D, pieces: &[&[u8]]) -> Result<(), Failed>
    requires opened { IsTrue (D.shows desk.old).output.opened }
    ensures { WritesText (flat_map (λ piece. piece.now) pieces.now) (D.shows desk.old) (D.shows desk.new) result }
{
    for piece in pieces {
        write_all(desk, piece)?;
    }
    Ok(())
}

/// Says the pieces, one behind another. Takes no memory.
pub fn say_pieces<D: Desk>(desk: &mut D, pieces: &[&[u8]]) -> Result<(), Failed>
    ensures { SaysText (flat_map (λ piece. piece.now) pieces.now) (D.shows desk.old) (D.shows desk.new) result }
{
    for piece in pieces {
        say_all(desk, piece)?;
    }
    Ok(())
}

/// Reads the rest of the file that is taken in, to the end of the bytes.
fn read_rest<D: Desk>(desk: &mut D, bytes: &mut Vec<u8>, limit: u64) -> Result<(), ReadFault>
    requires taken { IsTrue (D.shows desk.old).input.taken }
    requires room { vec_len bytes.old ≤ limit }
    ensures ok { OnOk result
        (IfSome (D.shows desk.old).input.unread (λ rest. bytes.new.items ≡ bytes.old.items ++ rest)) }
    ensures within { vec_len bytes.new ≤ limit }
    ensures too_long { IsErrOf result ReadFault.TooLong
        → IfSome (D.shows desk.old).input.unread (λ rest. limit < vec_len bytes.old + length rest) }
    ensures end { OnOk result (ShowsSame (D.shows desk.new) (all_read (D.shows desk.old))) }
    ensures stops { IfErr result (λ fault. (n : ℕ) × IsCountAt limit fault (vec_len bytes.old + n)
        × ShowsSame (D.shows desk.new) (after_read n (D.shows desk.old))) }
    ensures faults { CountsReadFault (D.shows desk.old) (D.shows desk.new)
        (IsFaultOf DeskCall.Read (D.shows desk.old).input.name) result }
{
    let mut buf = [0u8; PIECE];
    'pieces: loop {
        let n = desk.read(&mut buf)?;
        if n == 0 {
            return Ok(());
        }
        if (limit - bytes.len() as u64) < n as u64 {
            return Err(ReadFault::TooLong);
        }
        bytes.extend_from_slice(&buf[..n])?;
    }
}
