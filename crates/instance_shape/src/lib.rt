//! The instance that a JSON text stands for: what stands where, its faults, and its tables. Faults are of the shape, or
//! across the file.
#![tactic(auto)]

mod fault;
mod laws;
mod names;
mod required;
mod seen;
mod spot;

pub use fault::{Fault, Flaw, Known, Which};
pub use laws::{
    defined_tables_fit, files_have_one_answer, files_have_own_numbers, own_numbers_are_a_reading,
};
pub use names::{is_name, number_of};
pub use required::{missing_key, text_of};
pub use seen::add_text;
pub use spot::{Kind, Spot, element, kind_of, under};
