//! Refined price lists: tails by groups of scenarios with offsets, caps on the loads that count for lower limits, and
//! cliques of interventions that exclude each other, with the law that the prices of a feasible plan's starts and the
//! constant come to at most its score.
//!
//! Interventions, resources, exclusions and groups count from 0; periods, starts and scenarios count from 1. Prices,
//! worths and scores are in parts of 10^-18, which are counts of 10^-12 times millionths.
//!
//! `tables` has exact tests of such lists, and their tables over an instance.
#![tactic(auto)]

mod clique;
mod group;
mod group_tail;
mod groups;
mod laws;
mod member;
mod offset;
mod refined;
mod tables;

pub use clique::Clique;
pub use group::Group;
pub use group_tail::GroupTail;
pub use groups::Groups;
pub use laws::{
    at_most_one_of_a_clique_runs, caps_keep_lower_limits, refined_lists_are_lawful,
    refined_prices_are_small,
};
pub use member::Member;
pub use offset::Offset;
pub use refined::RefinedPrices;
pub use tables::{
    CapTable, exclude_each_other, groups_at, is_clique, is_group, is_group_tail, is_offset,
    is_priced_clique, is_refined_list, refined_rows,
};
