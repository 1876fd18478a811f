//! What the program has of its terminal: files that are read and written whole, what a person is told meanwhile, what
//! is written of the end, and a prompt for what a person types.
#![tactic(auto)]

mod files;
mod held;
mod help;
mod layout;
mod making;
mod output;
mod progress;
mod prompt;

pub use files::{FileFault, Input, make_file, write_file};
pub use held::Held;
pub use help::help_text;
pub use layout::wrapped;
pub use making::{NewFile, make_files};
pub use output::{
    AnswerOutput, NO_MEMORY, NOT_WRITTEN, file_refused, file_refused_so, is_taken, print,
    print_answer, refused, write_bytes,
};
pub use progress::Progress;
pub use prompt::{Prompt, is_typed};
