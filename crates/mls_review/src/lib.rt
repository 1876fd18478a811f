//! A start or a state, reviewed: its labels drawn as a lattice, what is suspicious in its permissions, and what its
//! subjects may change.
#![tactic(auto)]

mod authority;
mod change;
mod change_lines;
mod change_members;
mod change_rows;
mod counting;
mod cover;
mod covering;
mod dead;
mod diagram;
mod distinct;
mod downflow;
mod drawing;
mod finding;
mod finding_lines;
mod finding_members;
mod finding_rows;
mod flows;
mod holder;
mod holding;
mod known;
mod linting;
mod live;
mod power;
mod relabeling;
mod theorems;
mod unused;

pub use authority::{Asked, changes};
pub use change::Change;
pub use change_lines::push_change;
pub use change_rows::{powers, push_powers};
pub use cover::Cover;
pub use covering::covering_pairs;
pub use dead::{Dead, dead_permissions};
pub use diagram::lattice;
pub use distinct::distinct_labels;
pub use downflow::Downflow;
pub use drawing::{SHOWN, push_holder};
pub use finding::Finding;
pub use flows::downflows;
pub use holder::Holder;
pub use holding::holders;
pub use linting::{findings, lint, lint_state};
pub use live::dead_at_all_labels;
pub use power::Power;
pub use relabeling::Relabeling;
pub use theorems::{creates_are_alike, gives_are_alike};
pub use unused::{idle_subjects, unused_objects};
