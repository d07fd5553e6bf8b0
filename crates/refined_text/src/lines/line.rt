//! What a line of version 3 may be.

use crate::lines::Members;
use certificate_lines::{CertificateLine, Numbers};

/// A line of version 3. Its numbers are those of the text, in which resources, interventions, exclusions, scenarios,
/// groups and periods count from 1.
#[derive(Debug, Drop)]
pub enum RefinedLine {
    /// `mpcert 3`.
    Title,
    /// A line that version 2 has too, but no title and no tail.
    Plain(CertificateLine),
    /// `cap`: no load counts for more than the cap at the price of a lower limit.
    Cap,
    /// `tail T K1 V1 K2 V2 ..`: a group of scenarios of a period, in ascending order, each with its weight.
    Group { t: u64, members: Members },
    /// `off T I G V`: the offset of an intervention and a group in a period.
    Offset { t: u64, i: u64, g: u64, v: u64 },
    /// `clq T V I1 I2 ..`: the price of a clique in a period, and its interventions in ascending order.
    Clique { t: u64, v: u64, members: Numbers },
}
