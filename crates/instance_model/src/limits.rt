//! The limits on instances and files, as one record.
ghost use Rattle.std.specs.Prelude.{◌≡◌};
ghost use Rattle.instance_model.specs.Limits.{standard_limits};

/// How large an instance and the texts that go with it may be: counts, and lengths of files in bytes.
#[derive(Clone, Copy, Debug, PartialEq, Eq)]
pub struct Limits {
    pub periods: u64,
    pub resources: u64,
    pub interventions: u64,
    /// Of one period.
    pub scenarios: u64,
    pub seasons: u64,
    pub exclusions: u64,
    /// Numbers under `risk` in a file.
    pub risk_cells: u64,
    /// Numbers under `workload` in a file.
    pub workload_entries: u64,
    pub instance_bytes: u64,
    pub plan_bytes: u64,
    pub certificate_bytes: u64,
    pub script_bytes: u64,
}

impl Limits {
    /// The limits that the program is shipped with.
    pub fn standard() -> Limits
        ensures { result ≡ standard_limits }
    {
        Limits {
            periods: 512,
            resources: 32,
            interventions: 1024,
            scenarios: 1024,
            seasons: 64,
            exclusions: 65_536,
            risk_cells: 100_000_000,
            workload_entries: 32_000_000,
            instance_bytes: 2_147_483_647,
            plan_bytes: 16_777_216,
            certificate_bytes: 268_435_456,
            script_bytes: 536_870_912,
        }
    }
}
