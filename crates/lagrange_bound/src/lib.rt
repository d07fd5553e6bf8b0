//! Prices on limits and exclusions, and the bound that they give: the worth of a box of starts. No feasible plan in a
//! box has a value below it, whatever the prices in range are.
//!
//! Interventions, resources and exclusions count from 0; periods, starts and scenarios count from 1. Prices, bases,
//! worths and scores are in parts of 10^-18, which are counts of 10^-12 times millionths.
#![tactic(auto)]

mod band_cost;
mod ex_cost;
mod ex_list;
mod ex_price;
mod ex_sums;
mod goal;
mod laws;
mod least_price;
mod limit_cost;
mod places;
mod price_rows;
mod prices;
mod pricing;
mod risk_goal;
mod span;
mod table;
mod tail;
mod term;

pub use ex_price::ExPrice;
pub use ex_sums::exclusion_sums;
pub use goal::Goal;
pub use laws::{
    lawful_worths_bound_plans, prices_are_lawful, worth_bounds_plans, worths_are_small,
};
pub use limit_cost::fixed_cost;
pub use places::Places;
pub use prices::Prices;
pub use pricing::price;
pub use risk_goal::RiskGoal;
pub use span::Span;
pub use table::{PriceTable, tabulate, worth};
pub use tail::Tail;
