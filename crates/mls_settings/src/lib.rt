//! Members of a start file that are set to other texts, as words spell them, and the start that the file says then.
#![tactic(auto)]

mod judging;
mod setting;
mod setting_file;

pub use judging::{SettingFault, judge};
pub use setting::{Member, Setting};
pub use setting_file::load_set;
