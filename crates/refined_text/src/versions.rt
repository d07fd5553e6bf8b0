//! Certificates of every version as ones by refined price lists.
//!
//! One of version 1 or 2 is told as one of version 3 with the same bound and the same nodes. Each price list is told as
//! the refined list with the same price at each start and the same constant, so the same leaves hold.

mod certificate;
mod laws;
mod list;
mod read;

pub use certificate::refined_certificate;
pub use laws::{any_texts_tell, versions_hold_alike, versions_stay_in_range};
pub use list::refined_list;
pub use read::read_any;
