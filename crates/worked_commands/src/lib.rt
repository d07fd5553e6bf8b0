//! Commands run over files in memory: the tests of `command_solve`, `command_rebound` and `command_roll`, of the limit of
//! `command_bound`, and of what only such files have: pieces of each size, memory and rows that are refused, and a call of
//! the desk that fails, at each place of a run, for each command.
#![tactic(auto)]

#[cfg(test)]
mod bound;
#[cfg(test)]
mod failures;
#[cfg(test)]
mod memory;
#[cfg(test)]
mod pieces;
#[cfg(test)]
mod rebound;
#[cfg(test)]
mod roll;
#[cfg(test)]
mod samples;
#[cfg(test)]
mod solve;
#[cfg(test)]
mod sum_rows;
