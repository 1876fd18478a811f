//! States as texts: the text of a state, which is read back, and a start file that opens with a state but for numbers.
#![tactic(auto)]

mod cells;
mod labels;
mod names;
mod new_names;
mod objects;
mod order;
mod read_fault;
mod rebuilding;
mod same;
mod scheme_names;
mod schemes;
mod start_text;
mod state_comparing;
mod state_line;
mod state_lines;
mod state_reading;
mod state_rows;
mod state_start;
mod state_words;
mod state_writing;
mod subjects;
mod table_lines;
mod text_lists;
mod theorems;

pub use read_fault::ReadStateFault;
pub use scheme_names::{category_names, level_names};
pub use state_comparing::is_text_of;
pub use state_lines::{push_object_line, push_subject_line};
pub use state_reading::read_state;
pub use state_start::{StateStart, StateStartFault, start_of_state};
pub use state_writing::state_text;
pub use table_lines::{push_cell, push_row};
pub use theorems::{a_start_has_names, a_text_is_of_one_state};
