//! How start files differ.
ghost use Rattle.std.specs.Prelude.{◌≡◌, ℕ, List, option_map, IfOk, IfErr, None, Some};
ghost use Rattle.mls_start_file.specs.Says.{SaysStart};
ghost use Rattle.mls_journal.specs.EntryText.{journal_text};
ghost use Rattle.mls_compare.specs.Comparing.{Compares, ComparesWith, FollowsJournal, RefusesComparison, RefusesLoaded};
ghost use Rattle.mls_compare.specs.Comparing.{RefusesOther, RefusesReplies, RefusesSecond, Tells};
ghost use Rattle.mls_start_file.specs.Ties.{HasFewNames};

use crate::asked::Asked;
use crate::compare_fault::CompareFault;
use crate::following::compare_replies;
use mls_differences::compare_starts;
use mls_lines::Names;
use mls_monitor::{Monitor, Start};
use mls_replay::{CommandFault, load_start, replay_over};
use mls_rows::{Form, Listing};
use mls_start_file::Loaded;
use std::alloc::Global;

/// The start of the second file.
///
/// # Errors
/// `Second` where the file is refused or an allocation failed.
pub(crate) fn load_second(alloc: Global, bytes: &[u8]) -> Result<Loaded, CompareFault>
    ensures ok { IfOk result (λ loaded. SaysStart bytes.now loaded) }
    ensures fault { IfErr result (λ fault. RefusesOther bytes.now fault) }
{
    match load_start(alloc, bytes) {
        Ok(loaded) => Ok(loaded),
        Err(fault) => Err(CompareFault::Second(fault)),
    }
}

/// The monitor of a start over which a journal is replayed.
///
/// # Errors
/// `Journal` where the journal is refused or an allocation failed.
fn replayed(alloc: Global, start: Start, journal: &[u8]) -> Result<Monitor, CompareFault>
    ensures start { IfOk result (λ monitor. monitor.start ≡ start) }
    ensures forgotten { IfOk result (λ monitor. monitor.forgotten ≡ 0) }
    ensures text { IfOk result (λ monitor. journal.now ≡ journal_text monitor.entries) }
    ensures fault { IfErr result (λ fault. RefusesReplies start journal.now fault) }
{
    match replay_over(alloc, start, journal) {
        Ok(monitor) => Ok(monitor),
        Err(fault) => Err(CompareFault::Journal(fault)),
    }
}

/// How a start with these names and another differ over a journal of the first.
fn compare_over(
    alloc: Global,
    form: Form,
    names: &Names,
    start: Start,
    second: &Loaded,
    journal: &[u8],
    asked: &Asked,
) -> Result<Listing, CompareFault>
    requires { HasFewNames names.now }
    ensures ok { IfOk result
        (λ found. FollowsJournal asked.now form names.now start second.now journal.now found) }
    ensures fault { IfErr result (λ fault. RefusesReplies start journal.now fault) }
{
    let monitor = replayed(alloc, start, journal)?;
    let answer = compare_replies(alloc, form, names, second, monitor.entries(), asked);
    drop(monitor);
    Ok(answer?)
}

/// How a start and another differ over a journal of the first.
fn compare_parts(
    alloc: Global,
    form: Form,
    first: Loaded,
    second: &Loaded,
    journal: &[u8],
    asked: &Asked,
) -> Result<Listing, CompareFault>
    ensures ok { IfOk result
        (λ found. FollowsJournal asked.now form first.names first.start second.now journal.now found) }
    ensures fault { IfErr result (λ fault. RefusesReplies first.start journal.now fault) }
{
    // that there are few names
    let _ = first.names();
    let (names, start): (Names, Start) = first.into_parts();
    let answer = compare_over(alloc, form, &names, start, second, journal, asked);
    drop(names);
    answer
}

/// How a start differs from another, by names and openings.
fn compare_openings(
    alloc: Global,
    form: Form,
    words: (&str, &str),
    first: Loaded,
    second: &Loaded,
    asked: &Asked,
) -> Result<Listing, CompareFault>
    ensures ok { IfOk result (λ found.
        Tells asked.now form words.entry.0.now words.entry.1.now first second.now None found) }
    ensures fault { IfErr result (λ fault. RefusesLoaded first.start None fault) }
{
    let answer = compare_starts(alloc, form, words, &first, second, asked.scope);
    drop(first);
    Ok(answer?)
}

/// How a start differs from another: over a journal of the first, where there is one.
pub(crate) fn compare_loaded(
    alloc: Global,
    form: Form,
    words: (&str, &str),
    first: Loaded,
    second: &Loaded,
    journal: Option<&[u8]>,
    asked: &Asked,
) -> Result<Listing, CompareFault>
    ensures ok { IfOk result (λ found.
        Tells asked.now form words.entry.0.now words.entry.1.now first second.now
        (option_map (λ bytes. bytes.now) journal.entry) found) }
    ensures fault { IfErr result (λ fault.
        RefusesLoaded first.start (option_map (λ bytes. bytes.now) journal.entry) fault) }
{
    match journal {
        Some(journal) => compare_parts(alloc, form, first, second, journal, asked),
        None => compare_openings(alloc, form, words, first, second, asked),
    }
}

/// How a start and the one of a second file differ.
fn compare_with(
    alloc: Global,
    form: Form,
    words: (&str, &str),
    first: Loaded,
    second: &[u8],
    journal: Option<&[u8]>,
    asked: &Asked,
) -> Result<Listing, CompareFault>
    ensures ok { IfOk result (λ found.
        ComparesWith asked.now form words.entry.0.now words.entry.1.now first second.now
        (option_map (λ bytes. bytes.now) journal.entry) found) }
    ensures fault { IfErr result (λ fault.
        RefusesSecond first.start second.now (option_map (λ bytes. bytes.now) journal.entry) fault) }
{
    match load_second(alloc, second) {
        Ok(second) => {
            let answer = compare_loaded(alloc, form, words, first, &second, journal, asked);
            drop(second);
            answer
        }
        Err(fault) => {
            drop(first);
            Err(fault)
        }
    }
}

/// How the start of a second file differs from that of a first, in a form, of what is asked for. The files have these
/// words. Without a journal: the names that only one start has, and the gets, of subjects and objects that both have,
/// that the two openings answer otherwise. With a journal of the first start: the entries that the second start answers
/// otherwise, where all that they name is carried over by name. The answer is positive where there is none of these.
///
/// # Errors
/// - `First` where the first file is refused, else `Second` where the second is.
/// - `Journal` where the journal is refused as one of the first start: its lines before its replay.
/// - One of these with `Memory` where an allocation failed.
pub fn compare(
    alloc: Global,
    form: Form,
    words: (&str, &str),
    first: &[u8],
    second: &[u8],
    journal: Option<&[u8]>,
    asked: &Asked,
) -> Result<Listing, CompareFault>
    ensures ok { IfOk result (λ found.
        Compares asked.now form words.entry.0.now words.entry.1.now first.now second.now
        (option_map (λ bytes. bytes.now) journal.entry) found) }
    ensures fault { IfErr result (λ fault.
        RefusesComparison first.now second.now (option_map (λ bytes. bytes.now) journal.entry) fault) }
{
    match load_start(alloc, first) {
        Ok(first) => compare_with(alloc, form, words, first, second, journal, asked),
        Err(fault) => Err(CompareFault::First(fault)),
    }
}
