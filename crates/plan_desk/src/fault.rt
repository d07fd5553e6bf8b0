//! How faults are counted and kept.
ghost use Rattle.std.specs.Prelude.{◌≡◌, ◌≤◌, ◌↔◌, List, length, IfSome, IsSome};
ghost use Rattle.plan_desk.specs.Faults.{one_more, count_after, is_say};
ghost use Rattle.plan_desk.specs.Mem.{fault_of, IsLastAt};
ghost use Rattle.plan_desk.specs.Stored.{Stored};

use crate::files::LastFault;
use crate::{DeskCall, Failed};
use arrayvec::ArrayString;

/// How many calls have failed, and how many of them were a `say`.
#[derive(Clone, Copy)]
pub struct FaultCounts {
    pub count: u64,
    pub of_say: u64,
}

/// Counts a fault of this call.
pub fn count_fault(faults: &mut FaultCounts, call: DeskCall) -> Failed
    ensures count { faults.new.count ≡ one_more faults.old.count }
    ensures of_say { faults.new.of_say ≡ count_after (is_say call) faults.old.of_say }
{
    faults.count = faults.count.saturating_add(1);
    if matches!(call, DeskCall::Say) {
        faults.of_say = faults.of_say.saturating_add(1);
    }
    Failed
}

/// Counts a fault of this call and keeps it as the last one.
pub fn fail(
    faults: &mut FaultCounts,
    last: &mut Option<LastFault>,
    call: DeskCall,
    fault: Option<LastFault>,
) -> Failed
    ensures kept { last.new ≡ fault }
    ensures count { faults.new.count ≡ one_more faults.old.count }
    ensures of_say { faults.new.of_say ≡ count_after (is_say call) faults.old.of_say }
{
    *last = fault;
    count_fault(faults, call)
}

/// What is kept of a fault at this name: nothing, where the name is too long. It takes no memory.
pub fn named(call: DeskCall, name: &str) -> Option<LastFault>
    ensures told { IsSome result ↔ (length name.now ≤ 255) }
    ensures fault { IfSome result (λ l. (files : List Stored) → fault_of files l ≡ record {
      call = call;
      name = name.now;
    }) }
    ensures kept { (files : List Stored) → IsLastAt files result }
{
    match ArrayString::from(name) {
        Ok(name) => Some(LastFault::Named(call, name)),
        Err(_) => None,
    }
}
