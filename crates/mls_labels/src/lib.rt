//! Labels: a level and a set of categories, which label dominates which, and which labels a scheme has.
#![tactic(auto)]

mod bounds;
mod cat_set;
mod int_label;
mod label;
mod label_fault;
mod limits;
mod name_set;
mod name_set_fault;
mod names;
mod reading;
mod scheme;
mod scheme_fault;
mod sec_label;
mod theorems;
mod words;
mod writing;

pub use bounds::Bounds;
pub use cat_set::CatSet;
pub use int_label::IntLabel;
pub use label::Label;
pub use label_fault::LabelFault;
pub use limits::{MAX_CATEGORIES, MAX_LEVELS, MAX_NAME};
pub use name_set::NameSet;
pub use name_set_fault::NameSetFault;
pub use names::is_name;
pub use scheme::Scheme;
pub use scheme_fault::SchemeFault;
pub use sec_label::SecLabel;
pub use theorems::{
    a_text_has_one_meaning, a_text_is_read_as_it_is_spelled, a_written_label_is_spelled,
    dominance_is_a_partial_order, equal_labels_dominate_each_other, equality_is_of_values,
};
