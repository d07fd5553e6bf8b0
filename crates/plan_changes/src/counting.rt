//! How many starts are changes.
ghost use Rattle.std.specs.Prelude.{◌≡◌, ◌≤◌, ◌<◌, length};
ghost use Rattle.instance_model.specs.Plans.{start_of};
ghost use Rattle.plan_changes.specs.Changes.{is_changed, changes_of};

/// The old start of intervention `i`, if it has one. Takes no memory.
pub fn old_start(old: &[Option<u32>], i: usize) -> Option<u32>
    ensures { result ≡ start_of old.now i }
{
    if i < old.len() { old[i] } else { None }
}

/// Whether start `s` is a change, where this was the old start.
pub(crate) fn is_changed(old: Option<u32>, s: u32) -> bool
    ensures { result ≡ is_changed old s }
{
    match old {
        None => true,
        Some(r) => r != s,
    }
}

/// How many starts are changes. Takes no memory.
pub fn changes(plan: &[Option<u32>], starts: &[u32]) -> u64
    ensures value { result ≡ changes_of plan.now starts.now }
    ensures few { result ≤ length starts.now }
{
    let mut count: u64 = 0;
    for i in 0..starts.len() {
        if is_changed(old_start(plan, i), starts[i]) {
            count += 1;
        }
    }
    count
}
