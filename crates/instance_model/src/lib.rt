//! Instances as tables, and the definitions on plans: rules, values, keys and neighbours.
//!
//! A contract sees an `Instance` as a record of lists, and reads it through functions of the tables. Periods, starts
//! and scenarios count from 1; interventions, resources, seasons and exclusions count from 0.
#![tactic(auto)]

mod cells;
mod instance;
mod key;
mod laws;
mod limits;
mod offsets;
mod parts;
mod risk_lists;
mod risk_numbers;
mod risk_storage;
mod risks;
mod rule;
mod run_risks;
mod starts;
mod weighing;

pub use instance::Instance;
pub use key::Key;
pub use limits::Limits;
pub use offsets::is_allowed_in;
pub use parts::{Exclusion, LoadCell, Parts};
pub use risk_lists::{RiskList, RiskLists};
pub use risk_numbers::RiskNumbers;
pub use rule::Rule;
pub use run_risks::{ReadRisks, RunRisks};
pub use starts::{Starts, plan_of};
pub use weighing::{excess_above, weighted};
