// The checkers of orders and of blocked groups: whether what a search, or anyone, says of a table is so.
#![tactic(auto)]

mod groups;
mod orders;

pub use groups::check_group;
pub use orders::{Failing, check_order};
