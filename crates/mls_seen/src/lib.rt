//! What files are seen as that a question is asked over: a start file, and a journal whole or from a cut on.
#![tactic(auto)]

mod beginning;
mod history;
mod kept;
mod opened;
mod seeing;
mod seen;
mod source;
mod taking;
mod text_history;
mod theorems;

pub use history::History;
pub use kept::is_kept_state;
pub use opened::Opened;
pub use seeing::Seeing;
pub use seen::Seen;
pub use taking::replay_until;
pub use text_history::{TextHistory, TextRefused};
pub use theorems::cut_journals_are_seen_as_whole_ones;
