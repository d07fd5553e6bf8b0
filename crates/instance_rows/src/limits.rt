//! The limits of resources, widened by a slack.

ghost use Rattle.std.specs.Prelude.{◌≡◌, ◌+ℤ◌, ◌-ℤ◌, ◌++◌, IfOk, OnOk, flat_map, map};
ghost use Rattle.instance_rows.specs.Views.{band_view};

use crate::rows::Bands;
use fixed_num::Fixed;
use std::alloc::{AllocError, Global};

/// The upper limits by resource, then period, each raised by the slack.
pub fn upper(alloc: Global, bands: &[Bands], slack: Fixed) -> Result<Vec<i128>, AllocError>
    ensures { IfOk result (λ v. v.items ≡ flat_map (λ b. map (λ z. z +ℤ slack) b.most) (map band_view bands.now)) }
{
    let mut limits = Vec::new(alloc);
    for band in bands {
        add_raised(band.most.as_slice(), slack, &mut limits)?;
    }
    Ok(limits)
}

/// The lower limits by resource, then period, each lowered by the slack.
pub fn lower(alloc: Global, bands: &[Bands], slack: Fixed) -> Result<Vec<i128>, AllocError>
    ensures { IfOk result (λ v. v.items ≡ flat_map (λ b. map (λ z. z -ℤ slack) b.least) (map band_view bands.now)) }
{
    let mut limits = Vec::new(alloc);
    for band in bands {
        add_lowered(band.least.as_slice(), slack, &mut limits)?;
    }
    Ok(limits)
}

/// Adds some counts, raised by the slack.
fn add_raised(counts: &[Fixed], slack: Fixed, limits: &mut Vec<i128>) -> Result<(), AllocError>
    ensures { OnOk result (limits.new.items ≡ limits.old.items ++ map (λ z. z +ℤ slack) counts.now) }
{
    for count in counts {
        limits.push(count.count() + slack.count())?;
    }
    Ok(())
}

/// Adds some counts, lowered by the slack.
fn add_lowered(counts: &[Fixed], slack: Fixed, limits: &mut Vec<i128>) -> Result<(), AllocError>
    ensures { OnOk result (limits.new.items ≡ limits.old.items ++ map (λ z. z -ℤ slack) counts.now) }
{
    for count in counts {
        limits.push(count.count() - slack.count())?;
    }
    Ok(())
}
