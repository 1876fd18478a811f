//! How trust is used over entries.
ghost use Rattle.std.specs.Prelude.{◌≡◌, ◌++◌, length, filter, None, Some, IfOk, OnOk, if◌then◌else◌};
ghost use Rattle.std.specs.List.{flat_map, range_with_len};
ghost use Rattle.mls_tables.specs.declared.limits.TheConstants.{MAX_SUBJECTS};
ghost use Rattle.mls_spans.specs.Trust.{is_asked_by, is_trusted, last_entry, trust_of, trust_uses, trust_where};
ghost use Rattle.mls_spans.specs.UsageListings.{entries_between as between};

use crate::granted::trusted_in;
use crate::states::States;
use crate::trust::TrustUse;
use mls_monitor::Entry;
use mls_replay::TextReplay;
use mls_rules::State;
use mls_tables::{MAX_SUBJECTS, SubjectId};
use std::alloc::{AllocError, Global};

/// Whether a subject asked an entry.
fn is_asked_by(s: SubjectId, entry: &Entry) -> bool
    ensures { result ≡ is_asked_by s entry.now }
{
    entry.request.subject.number() == s.number()
}

/// How many of some entries a subject asked.
fn count_of(entries: &[Entry], s: SubjectId) -> u64
    ensures { result ≡ length (filter (is_asked_by s) entries.now) }
{
    let mut count = 0;
    for entry in entries {
        if is_asked_by(s, entry) {
            count += 1;
        }
    }
    count
}

/// The number of an entry, where a subject asked it, else another.
fn last_with(last: Option<u64>, entry: &Entry, s: SubjectId) -> Option<u64>
    ensures { result ≡ (if is_asked_by s entry.now then Some entry.now.number else last) }
{
    if is_asked_by(s, entry) {
        Some(entry.number)
    } else {
        last
    }
}

/// The number of the last of some entries that a subject asked.
fn last_of(entries: &[Entry], s: SubjectId) -> Option<u64>
    ensures { result ≡ last_entry None (filter (is_asked_by s) entries.now) }
{
    let mut last = None;
    for entry in entries {
        last = last_with(last, entry, s);
    }
    last
}

/// How often a subject's trust was used, by the entries that trust granted.
fn trust_of(entries: &[Entry], s: SubjectId) -> TrustUse
    ensures { result ≡ trust_of entries.now s }
{
    TrustUse {
        subject: s,
        count: count_of(entries, s),
        last: last_of(entries, s),
    }
}

/// Whether a subject is known, and trusted.
fn is_trusted(state: &State, s: SubjectId) -> bool
    ensures { result ≡ is_trusted state.now s }
{
    state.is_subject(s) && state.is_trusted(s)
}

/// Adds the use of a subject's trust, where it is trusted.
fn push_trust(
    found: &mut Vec<TrustUse>,
    state: &State,
    entries: &[Entry],
    s: SubjectId,
) -> Result<(), AllocError>
    ensures { OnOk result (found.new.items ≡ found.old.items ++ trust_where state.now entries.now s) }
{
    if is_trusted(state, s) {
        found.push(trust_of(entries, s))?;
    }
    Ok(())
}

/// How the trust in each subject of a state was used, by the entries that trust granted.
fn trust_by(alloc: Global, first: &State, granted: &[Entry]) -> Result<Vec<TrustUse>, AllocError>
    ensures { IfOk result (λ found. found.items
        ≡ flat_map (trust_where first.now granted.now) (range_with_len 0 MAX_SUBJECTS)) }
{
    let mut found = Vec::new(alloc);
    for s in 0..MAX_SUBJECTS {
        push_trust(&mut found, first, granted, SubjectId(s))?;
    }
    Ok(found)
}

/// How the trust in each subject was used between some states of a replay, from the state that it looks at: how many of
/// the entries it granted, and which was the last.
pub(crate) fn trust_over(
    alloc: Global,
    replay: &TextReplay,
    states: States,
) -> Result<Vec<TrustUse>, AllocError>
    ensures { IfOk result
        (λ found. found.items ≡ trust_uses replay.now.state (between states replay.now.entries)) }
{
    let granted = trusted_in(alloc, replay, states)?;
    let found = trust_by(alloc, replay.state(), &granted);
    drop(granted);
    found
}
