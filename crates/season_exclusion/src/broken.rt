//! Which exclusions are broken, and how many: contracts see flags by exclusion and their count.
ghost use Rattle.std.specs.Prelude.{◌≡◌, ℕ, ◌<◌, ◌^◌, false, length, slice_index_or, slice_set, IfOk};
ghost use Rattle.std.specs.List.{All, Contains};
ghost use Rattle.instance_model.specs.Plans.{AreAllowedStarts};
ghost use Rattle.season_exclusion.specs.Broken.{is_broken, count_set};

use duration_calendar::{meets_in, run};
use instance_model::Instance;
use std::alloc::{AllocError, Global};

/// Whether exclusion `e` is broken.
pub(crate) fn is_broken(inst: &Instance, starts: &[u32], e: u32) -> bool
    requires allowed { AreAllowedStarts inst.now starts.now }
    requires exclusion { e < length inst.now.exclusion_names }
    ensures { result ≡ is_broken inst.now starts.now e }
{
    let exclusion = inst.exclusion(e);
    let first = run(inst, exclusion.first, starts[exclusion.first as usize]);
    let second = run(inst, exclusion.second, starts[exclusion.second as usize]);
    meets_in(inst, exclusion.season, first, second).is_some()
}

/// Whether each exclusion is broken. Takes memory.
pub(crate) fn broken_flags(
    alloc: Global,
    inst: &Instance,
    starts: &[u32],
) -> Result<Vec<bool>, AllocError>
    requires { AreAllowedStarts inst.now starts.now }
    ensures each { IfOk result (λ flags. length flags.items ≡ length inst.now.exclusion_names) }
    ensures broken { IfOk result (λ flags.
        (e : ℕ) → e < length inst.now.exclusion_names
        → slice_index_or flags.items e false ≡ is_broken inst.now starts.now e) }
{
    let mut flags = Vec::new(alloc);
    for e in 0..inst.exclusions() {
        flags.push(is_broken(inst, starts, e))?;
    }
    Ok(flags)
}

/// How many of the flags are set.
pub(crate) fn count_set(flags: &[bool]) -> u64
    ensures { result ≡ count_set flags.now }
{
    let mut count = 0;
    for flag in flags {
        count += u64::from(*flag);
    }
    count
}

/// Sets flag `e`; the answer is how many are set then, where `count` were set before.
fn set_flag(flags: &mut [bool], e: usize, flag: bool, count: u64) -> u64
    requires few { length flags.old < 2 ^ 32 }
    requires within { e < length flags.old }
    requires count { count ≡ count_set flags.old }
    ensures flags { flags.new ≡ slice_set flags.old e flag }
    ensures count { result ≡ count_set flags.new }
{
    let was = flags[e];
    flags[e] = flag;
    count + u64::from(flag) - u64::from(was)
}

/// Tests the named exclusions again; the answer is how many are broken then, where `count` were broken before.
pub(crate) fn retest(
    inst: &Instance,
    starts: &[u32],
    named: &[u32],
    flags: &mut [bool],
    count: u64,
) -> u64
    requires allowed { AreAllowedStarts inst.now starts.now }
    requires each { length flags.old ≡ length inst.now.exclusion_names }
    requires named { All (λ e. e < length inst.now.exclusion_names) named.now }
    requires count { count ≡ count_set flags.old }
    ensures each { length flags.new ≡ length flags.old }
    ensures named { All (λ e. slice_index_or flags.new e false ≡ is_broken inst.now starts.now e) named.now }
    ensures others { (e : ℕ) → ¬ Contains named.now e
        → slice_index_or flags.new e false ≡ slice_index_or flags.old e false }
    ensures count { result ≡ count_set flags.new }
{
    inst.fits();
    let mut count = count;
    for e in named {
        count = set_flag(flags, *e as usize, is_broken(inst, starts, *e), count);
    }
    count
}
