//! What a report counts in a journal: denials in groups, and denials by week.
#![tactic(auto)]

mod column;
mod day;
mod denial;
mod trend;

pub use day::{push_week, week_of};
pub use denial::{Denial, denials, object_about};
pub use trend::{Trend, trend_by_part, trend_by_week};
