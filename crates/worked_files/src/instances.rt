//! Files of instances, read: the tests of `instance_shape`, `shape_walk`, `instance_rows` and `instance_read`.

mod faults;
mod files;
mod names_and_limits;
mod samples;
mod walks;
