//! What is written of subjects, objects, labels, requests and replies by the names of a start.
#![tactic(auto)]

mod answer;
mod label;
mod name;
mod number;
mod operands;
mod reply;
mod request;
mod theorems;

pub use answer::Answer;
pub use label::{push_integrity, push_security};
pub use name::{push_object, push_subject};
pub use number::push_number;
pub use reply::push_reply;
pub use request::push_request;
pub use theorems::{labels_have_their_texts, numbers_have_their_texts, requests_are_read_back};
