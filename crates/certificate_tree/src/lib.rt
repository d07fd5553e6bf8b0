//! Certificates as trees of boxes: when one is valid, and that it then bounds every feasible plan.
//!
//! A box has an interval of starts for each intervention. A node is a split of one interval into two, or a leaf that
//! says why no plan of its box is feasible with a value below the bound. Interventions, resources and exclusions count
//! from 0; periods, starts, price lists and leaves count from 1, and price list 0 is the list of zeros.
#![tactic(auto)]

mod band;
mod box_path;
mod certificate;
mod excl;
mod greatest;
mod laws;
mod node;
mod price_lists;
mod price_tables;
mod starts;

pub use band::band_holds;
pub use box_path::BoxPath;
pub use certificate::Certificate;
pub use certificate_lines::{Bound, Side, Version};
pub use excl::excl_holds;
pub use greatest::greatest_worth;
pub use laws::{
    leaves_hold_starts, leaves_refute_plans, lists_bound_boxes, nodes_are_one_tree,
    parts_are_boxes, parts_hold_plans, parts_hold_starts, proved_bounds_plans,
    same_worths_prove_the_same, tables_bound_boxes, valid_bounds_plans,
};
pub use node::{Node, Nodes};
pub use price_lists::PriceLists;
pub use price_tables::tables_of;
pub use starts::{has_start, has_starts};
