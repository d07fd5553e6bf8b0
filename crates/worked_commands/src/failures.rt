//! A call of the desk that fails, at each place of a run, for each command of the programs.
//!
//! It holds tests alone. What is due follows from the kind of the call and the files of the command.

mod calls;
mod commands;
mod due;
mod limits;
