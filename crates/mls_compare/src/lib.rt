//! Start files beside each other: how one differs from another, also over a journal; and maps of a start's objects to
//! those of a state.
#![tactic(auto)]

mod actions;
mod as_set;
mod asked;
mod carried;
mod carrier;
mod compare_fault;
mod comparing;
mod coulds;
mod entries_told;
mod entry_row;
mod following;
mod map;
mod map_names;
mod map_reading;
mod object_table;

pub use as_set::compare_set;
pub use asked::Asked;
pub use compare_fault::CompareFault;
pub use comparing::compare;
pub use coulds::compare_could;
pub use map::map_text;
pub use map_names::{MapFault, names_after};
pub use mls_differences::Scope;
pub use mls_settings::SettingFault;
