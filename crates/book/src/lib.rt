// The timing book: writing and reading, byte for byte.
#![tactic(auto)]

mod bytes;
mod checks;
mod fields;
mod layout;
mod reading;
mod storing;
mod verdicts;
mod writing;

pub use reading::{Book, read};
pub use verdicts::Verdict;
pub use writing::write;
