//! A plan of allowed starts that is changed and undone step by step, with its key kept. A change is one start or one
//! exchange.
//!
//! A contract sees what is kept as the list of plans that a start and its changes made, the present one last. Periods
//! and starts count from 1; interventions count from 0.
#![tactic(auto)]

mod board;
mod change;
mod kept;
mod key_limit;
mod moves;
mod script_line;
mod violations;

pub use change::Change;
pub use instance_model::Key;
pub use kept::Kept;
pub use moves::Moves;
pub use script_line::ScriptLine;
