//! Exact numbers: counts of 10^-12, their sums, amounts, quotients and texts, and a counter of steps.
#![tactic(auto)]

mod amount;
mod divide;
mod fixed;
mod line;
mod steps;
mod sum;

pub use amount::Amount;
pub use divide::{ceil_div, floor_div};
pub use fixed::{Fixed, TooLarge};
pub use line::Line;
pub use steps::Steps;
pub use sum::Sum;
