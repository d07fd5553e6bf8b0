//! Exact tests and tables of refined price lists: whether a list is in range for an instance, the caps of lower limits,
//! and the prices of all allowed starts with the constant.
//!
//! Interventions, resources, exclusions and groups count from 0; periods, starts and scenarios count from 1. Loads and
//! caps are counts of 10^-12; prices are in parts of 10^-18, which are counts of 10^-12 times millionths.

mod cap_table;
mod clique_test;
mod constant;
mod group_term;
mod group_test;
mod list_test;
mod load_costs;
mod offset_rows;
mod paid_sums;
mod rows;
mod width;

pub use cap_table::CapTable;
pub use clique_test::{exclude_each_other, is_clique};
pub use group_test::{is_group, is_group_tail};
pub use list_test::{groups_at, is_offset, is_priced_clique, is_refined_list};
pub use rows::refined_rows;
