//! The ladder of prices: a price list is raised by steps in one place, as long as one gains enough. A step gains what
//! it adds to the worth of the box of all starts. A step adds a power of ten to one price or takes it off, or switches
//! the tail of a plan in one period.
//!
//! Interventions, resources and exclusions count from 0; periods, starts and scenarios
//! count from 1. Worths are in parts of 10^-18.
#![tactic(auto)]

mod aim;
mod ascent;
mod band;
mod budget;
mod choice;
mod climb;
mod entries;
mod kept;
mod ladder;
mod least_gain;
mod number;
mod phase;
mod place;
mod plain;
mod plan_tail;
mod raise;
mod rebased;
mod root;
mod scan;
mod sizes;
mod spot;
mod start_place;
mod weight;
mod whole;
mod work;

pub use place::Place;
pub use plain::raise_plainly;
pub use raise::raise_prices;
