//! Annealing among plans that keep every rule: changes of starts, drawn from a seed, which may raise the score by less
//! and less.
//!
//! What is found is a plan of allowed starts and no more: who calls judges it from scratch. So sums of the search wrap,
//! and places are looked up where nothing says that they are there; what the search counts in is said in `units`. For
//! tests alone, `trial` shows what it judges.
#![tactic(auto)]

mod annealing;
mod bands;
mod change;
mod judge;
mod level;
mod period;
mod pieces;
mod rows;
mod run;
mod runs;
mod scan;
mod seasons;
mod state;
pub mod trial;
mod tries;
mod units;
mod works;

pub use annealing::anneal;
