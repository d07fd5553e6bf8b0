//! Texts of drawn instances.

use crate::annealing::shapes::Shape;
use rand_core::SeedableRng;
use rand_core::utils::NextWord;
use rand_pcg::Pcg32;
use std::alloc::{AllocError, Global};

/// A text that grows, and what it is drawn by.
#[derive(Drop)]
pub(crate) struct Draft {
    words: Pcg32,
    text: String,
}

impl Draft {
    pub(crate) fn new(alloc: Global, seed: u64) -> Draft {
        Draft {
            words: Pcg32::seed_from_u64(seed),
            text: String::new(alloc),
        }
    }

    /// A number below `m`.
    pub(crate) fn below(&mut self, m: u32) -> u32 {
        self.words.next_word() % m.max(1)
    }

    /// So many numbers from `least` on, each of them one of `width`.
    pub(crate) fn counts(
        &mut self,
        alloc: Global,
        count: u32,
        least: u32,
        width: u32,
    ) -> Result<Vec<u32>, AllocError> {
        let mut counts = Vec::new(alloc);
        for _ in 0..count {
            counts.push(self.below(width).saturating_add(least))?;
        }
        Ok(counts)
    }

    fn push(&mut self, piece: &str) -> Result<(), AllocError> {
        self.text.push_str(piece)
    }

    fn push_counts(&mut self, alloc: Global, counts: &[u32]) -> Result<(), AllocError> {
        let mut before = "[";
        for count in counts {
            self.push(format!(in alloc; "{before}{count}")?.as_str())?;
            before = ",";
        }
        self.push("]")
    }

    /// Limits of all periods, from `least` on, each of them one of four.
    fn push_limits(&mut self, alloc: Global, periods: u32, least: i64) -> Result<(), AllocError> {
        let mut before = "[";
        for _ in 0..periods {
            let limit = i64::from(self.below(4)).saturating_add(least);
            self.push(format!(in alloc; "{before}{limit}")?.as_str())?;
            before = ",";
        }
        self.push("]")
    }

    fn push_resource(&mut self, alloc: Global, name: &str, periods: u32) -> Result<(), AllocError> {
        self.push(format!(in alloc; "\"{name}\":{{\"max\":")?.as_str())?;
        self.push_limits(alloc, periods, 8)?;
        self.push(",\"min\":")?;
        self.push_limits(alloc, periods, -4)?;
        self.push("}")
    }

    /// A season with a quarter of the periods. Period 0 is none.
    fn push_season(&mut self, alloc: Global, periods: u32) -> Result<(), AllocError> {
        self.push("[0")?;
        for t in 1..=periods {
            if self.below(4) == 0 {
                self.push(format!(in alloc; ",{t}")?.as_str())?;
            }
        }
        self.push("]")
    }

    /// All that stands before the interventions.
    fn push_head(
        &mut self,
        alloc: Global,
        shape: Shape,
        scenarios: &[u32],
    ) -> Result<(), AllocError> {
        let Shape {
            periods,
            alpha,
            quantile,
            ..
        } = shape;
        self.push(format!(in alloc;
            "{{\"T\":{periods},\"Alpha\":{alpha},\"Quantile\":{quantile}"
        )?.as_str())?;
        self.push(",\"Scenarios_number\":")?;
        self.push_counts(alloc, scenarios)?;
        self.push(",\"Seasons\":{\"n\":[],\"w\":")?;
        self.push_season(alloc, periods)?;
        self.push("},\"Exclusions\":{\"1\":[\"A\",\"B\",\"w\"],\"2\":[\"C\",\"C\",\"w\"],")?;
        self.push("\"3\":[\"C\",\"A\",\"w\"],\"4\":[\"B\",\"B\",\"n\"]},\"Resources\":{")?;
        self.push_resource(alloc, "q", periods)?;
        self.push(",")?;
        self.push_resource(alloc, "r", periods)
    }

    /// A load from -3 to 6 for each other start whose run has this period. Start 0 is none.
    fn push_loads(&mut self, alloc: Global, durations: &[u32], t: u32) -> Result<(), AllocError> {
        self.push(format!(in alloc; ",\"{t}\":{{\"0\":0")?.as_str())?;
        for s in first_start(durations, t)..=t {
            if runs_in(durations, s, t) && self.below(2) == 0 {
                let load = i64::from(self.below(10)).saturating_sub(3);
                self.push(format!(in alloc; ",\"{s}\":{load}")?.as_str())?;
            }
        }
        self.push("}")
    }

    /// The workloads of a resource. Period 0 is none.
    fn push_workload(
        &mut self,
        alloc: Global,
        durations: &[u32],
        periods: u32,
    ) -> Result<(), AllocError> {
        self.push("{\"0\":{}")?;
        for t in 1..=periods {
            self.push_loads(alloc, durations, t)?;
        }
        self.push("}")
    }

    /// Risks of all scenarios, whose digits are from -3 to 6.
    fn push_numbers(&mut self, alloc: Global, unit: &str, count: u32) -> Result<(), AllocError> {
        let mut before = "[";
        for _ in 0..count {
            let digit = self.below(10);
            let sign = if digit < 3 { "-" } else { "" };
            let digit = digit.abs_diff(3);
            self.push(format!(in alloc; "{before}{sign}{unit}{digit}")?.as_str())?;
            before = ",";
        }
        self.push("]")
    }

    /// Those of each start whose run has this period.
    fn push_risks(
        &mut self,
        alloc: Global,
        durations: &[u32],
        t: u32,
        unit: &str,
        scenarios: u32,
    ) -> Result<(), AllocError> {
        self.push(format!(in alloc; ",\"{t}\":{{\"0\":[]")?.as_str())?;
        for s in first_start(durations, t)..=t {
            if runs_in(durations, s, t) {
                self.push(format!(in alloc; ",\"{s}\":")?.as_str())?;
                self.push_numbers(alloc, unit, scenarios)?;
            }
        }
        self.push("}")
    }

    fn push_intervention(
        &mut self,
        alloc: Global,
        shape: Shape,
        scenarios: &[u32],
    ) -> Result<(), AllocError> {
        let periods = shape.periods;
        let longest = shape.longest.saturating_add(1);
        let durations = self.counts(alloc, periods, 0, longest)?;
        let durations = durations.as_slice();
        self.push(format!(in alloc; "{{\"tmax\":{periods},\"Delta\":")?.as_str())?;
        self.push_counts(alloc, durations)?;
        self.push(",\"workload\":{\"q\":")?;
        self.push_workload(alloc, durations, periods)?;
        self.push(",\"r\":")?;
        self.push_workload(alloc, durations, periods)?;
        self.push("},\"risk\":{\"0\":{}")?;
        for t in 1..=periods {
            let count = number_at(scenarios, t);
            self.push_risks(alloc, durations, t, shape.unit, count)?;
        }
        self.push("}}")
    }
}

/// The number of a period or start, of those by period or start.
fn number_at(numbers: &[u32], t: u32) -> u32 {
    let place = (t as usize).saturating_sub(1);
    numbers.get(place).copied().unwrap_or(0)
}

/// No start before this one has a run with period `t`.
fn first_start(durations: &[u32], t: u32) -> u32 {
    let longest = durations.iter().copied().max().unwrap_or(0);
    t.saturating_sub(longest).max(1)
}

fn runs_in(durations: &[u32], s: u32, t: u32) -> bool {
    s <= t && t.saturating_sub(s) < number_at(durations, s)
}

/// The text of the instance that a number draws.
pub(crate) fn instance_text(alloc: Global, shape: Shape, seed: u64) -> Result<String, AllocError> {
    let mut draft = Draft::new(alloc, seed);
    let scenarios = draft.counts(alloc, shape.periods, 1, shape.scenarios)?;
    draft.push_head(alloc, shape, scenarios.as_slice())?;
    let mut before = "},\"Interventions\":{";
    for name in ["A", "B", "C", "D"] {
        draft.push(format!(in alloc; "{before}\"{name}\":")?.as_str())?;
        draft.push_intervention(alloc, shape, scenarios.as_slice())?;
        before = ",";
    }
    draft.push("}}")?;
    Ok(draft.text)
}
