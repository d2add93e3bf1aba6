// Audsley's search, in one call and in quota steps.
#![tactic(auto)]

mod call;
mod ended;
mod scan;
mod state;
mod steps;
mod tally;

pub use call::{Found, Searched, search};
pub use ended::{Ended, search_rows};
pub use state::{State, fresh};
pub use steps::{Outcome, Stepped, step};
