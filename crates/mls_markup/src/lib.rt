//! A page of HTML, written element by element.
#![tactic(auto)]

mod attribute;
mod element;
mod escaping;
mod page;
mod style;
mod tag;
mod theorems;

pub use attribute::Attribute;
pub use page::Page;
pub use tag::Tag;
pub use theorems::{
    trees_are_written_in_turn, what_is_appended_of_a_tree_is_what_is_written_of_it,
    what_is_escaped_is_no_markup, what_is_written_is_whole,
};
