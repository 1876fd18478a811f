//! How two starts differ.
ghost use Rattle.std.specs.Prelude.{◌≡◌, IfOk};
ghost use Rattle.mls_differences.specs.Differences.{AreOpened, IsListing};

use crate::sections::{Differences, all_differences};
use crate::shared::{shared_objects, shared_subjects};
use mls_lines::Names;
use mls_monitor::Start;
use mls_rows::Listing;
use mls_rules::State;
use mls_start_file::Loaded;
use std::alloc::{AllocError, Global};

/// What differs between two starts with these names that open with these states.
fn compare_states(
    alloc: Global,
    names: (&Names, &Names),
    states: (&State, &State),
) -> Result<Differences, AllocError>
    ensures { IfOk result (λ found. AreOpened names.entry.0.now names.entry.1.now
        states.entry.0.now states.entry.1.now found) }
{
    let subjects = shared_subjects(alloc, names.0, names.1)?;
    let objects = shared_objects(alloc, names.0, names.1)?;
    let found = all_differences(alloc, names, states, &subjects, &objects);
    drop(objects);
    drop(subjects);
    found
}

/// What differs between a start that opens with a state and another start.
fn compare_opened(
    alloc: Global,
    names: (&Names, &Names),
    opened: &State,
    start: &Start,
) -> Result<Differences, AllocError>
    ensures { IfOk result (λ found. AreOpened names.entry.0.now names.entry.1.now opened.now start.now found) }
{
    let other = start.opening(alloc)?;
    let found = compare_states(alloc, names, (opened, &other));
    drop(other);
    found
}

/// What differs between the openings of two starts.
fn compare_openings(
    alloc: Global,
    names: (&Names, &Names),
    starts: (&Start, &Start),
) -> Result<Differences, AllocError>
    ensures { IfOk result (λ found. AreOpened names.entry.0.now names.entry.1.now
        starts.entry.0.now starts.entry.1.now found) }
{
    let opened = starts.0.opening(alloc)?;
    let found = compare_opened(alloc, names, &opened, starts.1);
    drop(opened);
    found
}

/// Rows of differences as an answer: a positive one where there is none.
pub fn listing(bytes: Vec<u8>) -> Listing
    ensures { IsListing bytes.items result }
{
    let is_positive = bytes.len() == 0;
    Listing { bytes, is_positive }
}

/// All that two starts have otherwise: what both have, but otherwise; what only one of them has; and the gets, of
/// subjects and objects that both have, that the two openings answer otherwise.
pub(crate) fn compare(
    alloc: Global,
    first: &Loaded,
    second: &Loaded,
) -> Result<Differences, AllocError>
    ensures { IfOk result (λ found. AreOpened first.now.names second.now.names
        first.now.start second.now.start found) }
{
    let names = (first.names(), second.names());
    let starts = (first.start(), second.start());
    compare_openings(alloc, names, starts)
}
