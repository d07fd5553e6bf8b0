//! Refined price lists over small drawn instances, beside what plain formulas say of them: the tests of
//! `refined_prices`, `refined_prices` and `refined_check`.
//!
//! Loads, limits and risks may be below 0, limits may be below or above all loads, periods may have one scenario, and
//! the quantile may be 1.

mod cases;
mod refusals;
mod worked;
