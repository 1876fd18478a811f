//! Where what is seen comes from.

use crate::seeing::Seeing;
use mls_replay::StateReplay;

/// Where what is seen comes from: a start file and the replay of a whole journal, or a journal that was looked through
/// from a cut on.
#[derive(Drop)]
pub(crate) enum Source {
    Whole(Vec<u8>, StateReplay),
    Behind(Seeing),
}
