//! What a start is made of.

use crate::start_builder::StartBuilder;
use mls_state::State;
use std::alloc::{Allocator, Global};

/// What a start is made of: rows with which nothing is wrong, or a state that is secure.
#[derive(Drop)]
pub(crate) enum Source<A: Allocator = Global> {
    Rows(StartBuilder<A>),
    State(State<A>),
}
