//! The box at hand of a search: what is kept of it while one interval at a time is changed.
//!
//! `BoxLoads` is a box with the least and the greatest load of each resource and period over its allowed starts, and
//! finds bands that hold on it. `ExclusionIndex` lists the exclusions that name each intervention, and finds those that
//! hold. Interventions, resources and exclusions count from 0; periods and starts count from 1.

mod band;
mod exclusions;
mod extent;
mod laws;
mod loads;
mod range;
mod walk;

pub use band::Band;
pub use exclusions::{ExclusionIndex, holding_exclusion, holding_exclusion_by};
pub use laws::others_are_kept;
pub use loads::BoxLoads;
