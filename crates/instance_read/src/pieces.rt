//! Feeding a reader piece by piece.

ghost use Rattle.std.specs.Prelude.{[], OnOk};
ghost use Rattle.json_events.specs.Pulls.{IsUnfinished};
ghost use Rattle.instance_model.specs.declared.limits.Limits.{Limits as Sizes};
ghost use Rattle.instance_read.specs.Fed.{HasRead};

use crate::reader::Reader;
use std::alloc::AllocError;

/// How many bytes are read at a time.
pub const PIECE: usize = 65_536;

/// Feeds bytes to a reader to which nothing was fed.
pub fn feed_all(reader: &mut Reader, bytes: &[u8]) -> Result<(), AllocError>
    requires { IsUnfinished reader.old.pull }
    ensures { OnOk result ((limits : Sizes) → HasRead limits reader.old [] → HasRead limits reader.new bytes.now) }
{
    let mut fed = 0;
    'pieces: while fed < bytes.len() {
        let end = fed + PIECE.min(bytes.len() - fed);
        reader.feed(&bytes[fed..end])?;
        fed = end;
    }
    Ok(())
}
