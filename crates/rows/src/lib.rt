// What a row and a table are, on what terms rows are tested, and the numbers answered.
#![tactic(auto)]

mod board;
pub mod numbers;
mod refusal;
mod table;
mod terms;

pub use board::Board;
pub use refusal::Refusal;
pub use table::{Row, check_table, read_row, row_at, row_count};
pub use terms::{Terms, limited};
