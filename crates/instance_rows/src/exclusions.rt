//! The exclusions, and their faults.

ghost use Rattle.std.specs.Prelude.{◌≡◌, IfOk, map, string_bytes};
ghost use Rattle.instance_rows.specs.Answers.{Tells};
ghost use Rattle.instance_rows.specs.RowFaults.{exclusion_fault, exclusions_fault};
ghost use Rattle.instance_rows.specs.RowTables.{exclusion_of};
ghost use Rattle.instance_rows.specs.Sound.{AreSound};
ghost use Rattle.instance_rows.specs.Views.{rows_view};

use crate::fault::RowsFault;
use crate::names::{number_of, word};
use crate::rows::FileRows;
use instance_model::Exclusion;
use std::alloc::Global;

/// The exclusions of a file, whose texts name two interventions and a season.
pub fn exclusions(alloc: Global, rows: &FileRows) -> Result<Vec<Exclusion>, RowsFault>
    requires { AreSound (rows_view rows.now) }
    ensures told { Tells (exclusions_fault (rows_view rows.now)) result }
    ensures values { IfOk result
        (λ v. v.items ≡ map (λ e. exclusion_of (rows_view rows.now) (map string_bytes e.items))
        rows.now.exclusion_words.items) }
{
    let mut excluded = Vec::new(alloc);
    for i in 0..rows.exclusion_words.len() {
        excluded.push(exclusion(alloc, rows, &rows.exclusion_words[i])?)?;
    }
    Ok(excluded)
}

/// The exclusion with these texts.
fn exclusion(alloc: Global, rows: &FileRows, words: &[String]) -> Result<Exclusion, RowsFault>
    requires { AreSound (rows_view rows.now) }
    ensures told { Tells (exclusion_fault (rows_view rows.now) (map string_bytes words.now)) result }
    ensures value { IfOk result (λ e. e ≡ exclusion_of (rows_view rows.now) (map string_bytes words.now)) }
{
    let first = number_of(alloc, &rows.interventions, word(words, 0))?;
    let second = number_of(alloc, &rows.interventions, word(words, 1))?;
    let season = number_of(alloc, &rows.seasons, word(words, 2))?;
    Ok(Exclusion {
        first,
        second,
        season,
    })
}
