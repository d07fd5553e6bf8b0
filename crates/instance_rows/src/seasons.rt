//! Which periods belong to which season.

ghost use Rattle.std.specs.Prelude.{◌≡◌, ◌≤◌, IfOk, flat_map, map};
ghost use Rattle.instance_shape.specs.FileTables.{lists_below};
ghost use Rattle.instance_rows.specs.RowTables as table;

use std::alloc::{AllocError, Global};

/// Whether a period belongs to a season, by season, then period. The lists are the periods of the seasons; others than
/// the periods from 1 to so many are left out.
pub fn in_season(alloc: Global, periods: u32, seasons: &[Vec<u32>]) -> Result<Vec<bool>, AllocError>
    requires { periods ≤ 512 }
    ensures { IfOk result
        (λ v. v.items ≡ flat_map (λ ps. lists_below periods (table.in_season ps)) (map (λ s. s.items) seasons.now)) }
{
    let mut flags = Vec::new(alloc);
    for season in seasons {
        let more = season_flags(alloc, periods, season.as_slice())?;
        flags.extend_from_slice(more.as_slice())?;
    }
    Ok(flags)
}

/// Whether a period is one of some periods, for the periods from 1 to so many.
fn season_flags(alloc: Global, periods: u32, season: &[u32]) -> Result<Vec<bool>, AllocError>
    requires { periods ≤ 512 }
    ensures { IfOk result (λ v. v.items ≡ lists_below periods (table.in_season season.now)) }
{
    let mut flags = vec![in alloc; false; periods as usize]?;
    for period in season {
        if 1 <= *period && *period <= periods {
            flags[*period as usize - 1] = true;
        }
    }
    Ok(flags)
}
