//! The room where the bytes of a script's line become what it asks: names, variables and the grammar of lines.
#![tactic(auto)]

mod command;
mod fault;
mod label;
mod line;
mod names;
mod names_fault;
mod number;
mod operand;
mod theorems;
mod token;
mod variables;

pub use fault::LineFault;
pub use line::{Line, MAX_LINE, read_line};
pub use mls_requests::Ask;
pub use names::Names;
pub use names_fault::NamesFault;
pub use number::numbers_law;
pub use theorems::{a_line_has_one_meaning, lines_law};
pub use token::tokens_law;
pub use variables::Vars;
