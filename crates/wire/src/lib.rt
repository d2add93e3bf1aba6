// How a case is read and an answer written: docs/EXAM.md says which bytes they are.
#![tactic(auto)]

pub mod answer;
pub mod case;
mod lists;
pub mod numbers;

pub use lists::{Bytes, Words};
