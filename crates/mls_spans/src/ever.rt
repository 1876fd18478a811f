//! Who could ever get an object over entries.
ghost use Rattle.std.specs.Prelude.{◌≡◌, ◌<◌, ◌++◌, IfOk, IfErr};
ghost use Rattle.std.specs.List.{flat_map, list_any};
ghost use Rattle.mls_rows.specs.Times.{rows_lent};
ghost use Rattle.mls_rows.specs.Rows.{bytes_of, form_of};
ghost use Rattle.mls_spans.specs.EverLines.{ever_row};
ghost use Rattle.mls_spans.specs.EverListings.{IsEver, ListsWord, RefusesWord};
ghost use Rattle.mls_spans.specs.EverListings.{modes_asked as modes_in, permissions_seen};
ghost use Rattle.mls_spans.specs.Permissions.{permissions_to};
ghost use Rattle.mls_spans.specs.Turning.{AreTurns, found_seen};
ghost use Rattle.mls_spans.specs.Windows.{is_any as is_any_in};

use crate::ever_rows::EverRow;
use crate::permissions::permissions_on;
use crate::states::States;
use crate::tallying::tally_over;
use crate::turn::Turn;
use crate::turning::Turns;
use crate::turns_over::turns_from;
use crate::using::entries_between;
use crate::windows::{is_any, windows_of};
use mls_lines::Names;
use mls_marks::Marks;
use mls_monitor::Start;
use mls_replay::{QuestionFault, Replay, named_object};
use mls_requests::Entry;
use mls_rows::{Form, Listing, Output};
use mls_rules::State;
use mls_tables::{Mode, Modes, ObjectId, SubjectId};
use std::alloc::{AllocError, Global};

/// The modes that are asked for: one, or all.
fn modes_asked(mode: Option<Mode>) -> Modes
    ensures { result ≡ modes_in mode }
{
    match mode {
        Some(x) => Modes::empty().with(x),
        None => Modes::empty()
            .with(Mode::Execute)
            .with(Mode::Read)
            .with(Mode::Append)
            .with(Mode::Write),
    }
}

/// That the number of an object has 16 bits.
fn fits(o: ObjectId)
    ensures { o < 65536 }
{
    let _ = o.number();
}

/// The permissions on an object over entries from a state.
fn permissions_over(
    alloc: Global,
    first: &State,
    entries: &[Entry],
    asked: Modes,
    o: ObjectId,
) -> Result<Vec<(SubjectId, ObjectId, Mode)>, AllocError>
    ensures { IfOk result (λ found. found.items ≡ permissions_to first.now entries.now asked o) }
{
    fits(o);
    let tally = tally_over(alloc, first, entries)?;
    let found = permissions_on(alloc, first, &tally, asked, o);
    drop(tally);
    found
}

/// The permissions on an object that some of the states have which are asked about.
fn permissions_of(
    alloc: Global,
    replay: &Replay,
    states: States,
    asked: Modes,
    o: ObjectId,
) -> Result<Vec<(SubjectId, ObjectId, Mode)>, AllocError>
    ensures { IfOk result (λ found. found.items ≡ permissions_seen replay.now states asked o) }
{
    if !states.are_some() {
        return Ok(Vec::new(alloc));
    }
    let entries = entries_between(replay.entries(), states);
    permissions_over(alloc, replay.state(), entries, asked, o)
}

/// Where the gets of an object turn over a start and its entries.
fn turns_over(
    alloc: Global,
    start: &Start,
    entries: &[Entry],
    o: ObjectId,
) -> Result<Turns, AllocError>
    ensures object { IfOk result (λ turns. turns.object ≡ o) }
    ensures turns { IfOk result (λ turns. AreTurns start.now entries.now turns) }
{
    let mut state = start.opening(alloc)?;
    let turns = turns_from(alloc, &mut state, entries, o);
    drop(state);
    turns
}

/// Adds an access, and tells whether its get would be granted in one of some states.
fn with_access(
    alloc: Global,
    output: Output,
    names: &Names,
    marks: Option<&Marks>,
    turns: &[Turn],
    states: &States,
    access: &(SubjectId, ObjectId, Mode),
) -> Result<(Output, bool), AllocError>
    ensures form { IfOk result (λ p. form_of p.0 ≡ form_of output) }
    ensures bytes { IfOk result (λ p. bytes_of p.0 ≡ bytes_of output ++ ever_row (form_of output) names.now
        (rows_lent marks.entry) access.now (found_seen turns.now states.now access.now)) }
    ensures seen { IfOk result (λ p. p.1 ≡ is_any_in (found_seen turns.now states.now access.now)) }
{
    let windows = windows_of(alloc, turns, access, states)?;
    let is_seen = is_any(&windows);
    let row = EverRow {
        access: *access,
        windows,
    };
    let output = output.with(names, marks, &row);
    drop(row);
    Ok((output?, is_seen))
}

/// Accesses, by where gets turn.
fn told(
    alloc: Global,
    form: Form,
    names: &Names,
    marks: Option<&Marks>,
    turns: &[Turn],
    states: &States,
    accesses: &[(SubjectId, ObjectId, Mode)],
) -> Result<Listing, AllocError>
    ensures bytes { IfOk result (λ listing. listing.bytes.items ≡ flat_map
        (λ t. ever_row form names.now (rows_lent marks.entry) t (found_seen turns.now states.now t)) accesses.now) }
    ensures positive { IfOk result (λ listing. listing.is_positive
        ≡ list_any (λ t. is_any_in (found_seen turns.now states.now t)) accesses.now) }
{
    let mut output = Output::new(alloc, form);
    let mut is_positive = false;
    for access in accesses {
        let (next, is_seen) = with_access(alloc, output, names, marks, turns, states, access)?;
        output = next;
        is_positive = is_positive || is_seen;
    }
    Ok(Listing {
        bytes: output.into_bytes(),
        is_positive,
    })
}

/// Who could ever get an object over a replay.
fn tell_object(
    alloc: Global,
    form: Form,
    replay: &Replay,
    marks: Option<&Marks>,
    states: States,
    asked: Modes,
    o: ObjectId,
) -> Result<Listing, AllocError>
    ensures { IfOk result (λ listing. IsEver form replay.now (rows_lent marks.entry) states asked o listing) }
{
    let accesses = permissions_of(alloc, replay, states, asked, o)?;
    let turns = turns_over(alloc, replay.start(), replay.entries(), o)?;
    let known = replay.names();
    let listing = told(alloc, form, known, marks, &turns.turns, &states, &accesses);
    drop(turns);
    drop(accesses);
    listing
}

/// Who could ever get an object over a replay, and when: a row in this form for each subject and mode of which one of
/// some states has the permission on it, with the spans of states in which the get would be granted, as long as they
/// are, that have one of the states. With the journal's marks the times of their entries are told. The replay looks at
/// the first of the states. The object is named by a name of the start, or by `#` and its number; without a mode all
/// are asked for. The answer is a positive one where there is such a span.
///
/// # Errors
/// - `Object` where the word is neither a name of the start's objects nor `#` and a number.
/// - `Files` with `Memory` as soon as an allocation fails.
pub fn list_ever(
    alloc: Global,
    form: Form,
    replay: &Replay,
    marks: Option<&Marks>,
    states: States,
    word: &str,
    mode: Option<Mode>,
) -> Result<Listing, QuestionFault>
    ensures ok { IfOk result
        (λ listing. ListsWord form replay.now (rows_lent marks.entry) states mode word.now listing) }
    ensures fault { IfErr result (λ fault. RefusesWord replay.now.names word.now fault) }
{
    let o = named_object(replay.names(), word)?;
    let listing = tell_object(alloc, form, replay, marks, states, modes_asked(mode), o)?;
    Ok(listing)
}
