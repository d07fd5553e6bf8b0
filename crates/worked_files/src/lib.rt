//! JSON texts and files of instances, read: the tests of `json_tree`, `json_events`, `decimal_numbers` and
//! `instance_read`, and of the crates that the last one reads with.
#![tactic(auto)]

#[cfg(test)]
mod instances;
#[cfg(test)]
mod json;
