//! The tables of the monitor: ids, modes, the access matrix and the current accesses, as sets of triples.
#![tactic(auto)]

mod access_set;
mod ids;
mod index;
mod limits;
mod listing;
mod lists;
mod matrix;
mod mode;
mod modes;
mod objects;
mod pair;
mod placing;
mod runs;
mod span;
mod subjects;
mod theorems;

pub use access_set::AccessSet;
pub use ids::{ObjectId, SubjectId};
pub use limits::{MAX_OBJECTS, MAX_SUBJECTS};
pub use lists::Lists;
pub use matrix::Matrix;
pub use mode::Mode;
pub use modes::Modes;
pub use placing::put_at;
pub use theorems::indexes_give_each_triple_once;
