//! The files of the program: start files, journals with their segments and states, and marks; how they are opened,
//! listed and read, and what is told where that fails.
#![tactic(auto)]

mod call_fault;
mod hint;
mod inputs;
mod marks;
mod opening;
mod segments;
mod telling;

pub use call_fault::{CallFault, FileCall, of_call};
pub use hint::{Hint, journal_hint, load_hint, start_hint};
pub use inputs::{journal_file, judge_start, load_start, open_start, start_file};
pub use marks::{
    MarksAsked, MarksFault, MarksInput, MarksJudge, Part, PartFault, first_line, marks_refused,
    older_path, placed, read_marks, take_pieces, tell_mark, verify_marks,
};
pub use opening::{OpenFault, PRIVATE, is_named, node_of, open_locked, sync_folder};
pub use segments::{
    Goal, KeptFault, Listing, Sought, Wanted, compare_state, count_judged, find_behind, first_here,
    first_number, go_on, is_last, kept_refused, last_number, len_of, list_beside, list_files,
    other_path, probe_files, read_from, read_front, read_journal, read_rest, real_path,
    refuse_behind, refuse_missing, resume, seek, segment_path, segments_of, state_path,
    tell_behind, tell_missing,
};
pub use telling::{
    command_refused, command_refused_so, fault_file, refused_with_place, start_refused, tell_call,
    tell_differing, tell_end,
};
