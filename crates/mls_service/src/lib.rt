//! `mls serve` over a real file: how its journal is opened, locked and synced, and what is told of it.
#![tactic(auto)]

mod anew;
mod command;
mod faults;
mod file_outside;
mod marked;
mod marked_service;
mod marks_border;
mod marks_file;
mod marks_following;
mod marks_head;
mod marks_headed;
mod marks_live;
mod marks_opening;
mod marks_renewing;
mod marks_settling;
mod opening;
mod segmented;
mod steps;
mod syncing;
mod torn_file;

pub use command::serve_journal;
