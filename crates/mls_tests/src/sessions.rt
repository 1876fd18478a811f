//! Sessions that need nothing private of their crate: offices, and runs of feeds in threads.
mod asker;
mod at_once;
mod feeds;
mod many;
mod offices;
mod pair;
mod runs;
mod single;
pub mod standard;
