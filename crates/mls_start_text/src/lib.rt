//! What a start file's text says: its members, its names, its labels and the places of its names.
#![tactic(auto)]

mod cell_text;
mod file_names;
mod file_places;
mod file_text;
mod labels;
mod load_fault;
mod looking;
mod name_sets;
mod object_text;
mod places;
mod scheme_text;
mod schemes;
mod subject_text;
mod tree;

pub use cell_text::CellText;
pub use file_names::FileNames;
pub use file_places::FilePlaces;
pub use file_text::FileText;
pub use labels::{FileLabels, LabelledChild};
pub use load_fault::LoadFault;
pub use name_sets::NameSets;
pub use object_text::{ChildText, ObjectText};
pub use places::{PlacedTriple, mode_of};
pub use scheme_text::SchemeText;
pub use schemes::Schemes;
pub use subject_text::SubjectText;
pub use tree::read_tree;
