//! An instance of the tests, and what certificates come to on one.

use crate::samples::instance;
use crate::{Audit, audit_text};
use certificate_text::{Bound, CertFault};
use instance_read::InstanceFault;
use std::alloc::Global;
use std::process::Abort;

/// Two interventions of one period each, both of which may run in either of two periods. Together they load `c` by 12
/// of 10, and they exclude each other in both periods. One scenario in each; the mean alone costs.
pub fn apart() -> &'static str {
    r#"{"Resources":{"c":{"max":[10,10],"min":[0,0]}},"Seasons":{"w":[1,2]},
"Interventions":{
"A":{"tmax":2,"Delta":[1,1],
"workload":{"c":{"1":{"1":6},"2":{"2":6}}},
"risk":{"1":{"1":[0]},"2":{"2":[4]}}},
"B":{"tmax":2,"Delta":[1,1],
"workload":{"c":{"1":{"1":6},"2":{"2":6}}},
"risk":{"1":{"1":[0]},"2":{"2":[2]}}}},
"Exclusions":{"E":["A","B","w"]},"T":2,"Scenarios_number":[1,1],
"Quantile":1,"Alpha":1}"#
}

/// What a certificate comes to on the instance of a text. It promises nothing, so that no test rests on what is proved.
///
/// No other function of these tests but those that write owns an instance: a proof goes through its drop at each exit.
pub fn audited(
    alloc: Global,
    whole: &str,
    text: &[u8],
) -> Result<Result<Audit, CertFault>, InstanceFault> {
    let inst = instance(alloc, whole)?;
    Ok(audit_text(alloc, &inst, text))
}

/// Whether this bound was proved.
pub fn is_proved(rt: &impl Abort, audit: Audit, bound: Bound) {
    assert_eq!(rt; audit, Audit::Proved(bound));
}

/// Whether this leaf is the first that doesn't hold.
pub fn fails_at(rt: &impl Abort, audit: Audit, n: u64) {
    assert_eq!(rt; audit, Audit::LeafFails { n });
}
