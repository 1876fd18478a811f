//! The room that says what can be asked of the monitor and what it replies: requests, checks, replies, entries, and the
//! words for them.
#![tactic(auto)]

mod action;
mod action_word;
mod ask;
mod entry;
mod mode_words;
mod number;
mod reason;
mod reply;
mod reply_word;
mod request;
mod theorems;

pub use action::Action;
pub use action_word::ActionWord;
pub use ask::Ask;
pub use entry::Entry;
pub use mode_words::{mode_word, read_mode};
pub use number::{decimals_law, read_decimal};
pub use reason::Reason;
pub use reply::Reply;
pub use reply_word::ReplyWord;
pub use request::Request;
pub use theorems::{
    actions_have_their_words, modes_have_their_words, reasons_have_their_words,
    replies_have_their_texts, replies_have_their_words,
};
