//! Refined price lists of great worth, found by a supergradient ascent over a box of starts: prices on limits and
//! exclusions, groups of scenarios with their weights, and offsets move together.
//!
//! Interventions, resources, exclusions and groups count from 0; periods and starts count from 1, and so do scenarios
//! of a list. Amounts of the ascent are in whole units of its own: nothing rests on them.
#![tactic(auto)]

mod ascent;
mod band;
mod clique;
mod clique_list;
mod deal;
mod group;
mod least;
mod list;
mod number;
mod offset;
mod place;
mod pricing;
mod raise;
mod run_sums;
mod scales;
mod shift;
mod simplex;
mod start;
mod tail;
mod tail_list;
mod units;

pub use raise::{raise_groups, raise_groups_in};
