//! An allocator for tests that refuses one allocation, so that each allocation can fail in turn.
#![tactic(auto)]

mod allocator;

pub use allocator::Refusing;
