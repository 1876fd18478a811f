//! The marks of a journal in one file or two: how they are read and verified, and what is told of them.
mod asked;
mod beginning;
mod ending;
mod faults;
mod file;
mod heading;
mod joining;
mod judging;
mod lines;
mod reading;
mod skipping;
mod turning;
mod whole;

pub use asked::MarksAsked;
pub use faults::{MarksFault, Part, PartFault, marks_refused, tell_mark};
pub use file::{MarksInput, older_path};
pub use joining::placed;
pub use judging::MarksJudge;
pub use lines::first_line;
pub use reading::take_pieces;
pub use whole::{read_marks, verify_marks};
