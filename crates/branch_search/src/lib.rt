//! The search over a tree of boxes: a bound with a tree that proves it by tables of prices, and the best plan that was
//! met; given a price list or none, a certificate.
//!
//! The leaf of least worth is split, until none is left whose worth is below the value of the best plan, or the turns
//! are spent. A box that a `band`, an `excl` or an `empty` leaf refutes is closed by it, and one that is a single plan
//! is judged. Interventions, resources and exclusions count from 0; periods, starts and price lists count from 1.
//!
//! `choosing` says where a box is split, `closing` what closes one, `splitting` makes a step, and `tree` keeps what was
//! made.
//!
//! `node_state` keeps loads and exclusions of the box at hand while one interval at a time is changed.
//!
//! The search is given the end of a descent, where that is feasible (`given_end`); its turns are the splits of its tree
//! (`split_count`).
#![tactic(auto)]

mod best;
mod choosing;
mod closing;
mod given;
mod laws;
mod node_state;
mod part;
mod search_end;
mod searching;
mod splits;
mod splitting;
mod startless;
mod tree;
mod tree_end;

pub use given::given_end;
pub use laws::{others_stay, parts_join};
pub use part::Part;
pub use search_end::SearchEnd;
pub use searching::{go_on, go_on_part, search, search_by};
pub use splits::split_count;
pub use startless::empty_certificate;
pub use tree_end::TreeEnd;
