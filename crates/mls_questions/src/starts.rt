//! The command that looks at a start file.
ghost use Rattle.std.specs.Prelude.{◌≡◌, ◌≢◌, ◌++◌, ◌==◌, ◌&&◌, length, IfOk, Some};
ghost use Rattle.std.specs.Str.{IsUtf8};
ghost use Rattle.json.specs.Json.{Json, document};
ghost use Rattle.serde_json.specs.Data.{Data};
ghost use Rattle.mls_questions.specs.Linting.{FindsInFile, FindsInStart};
ghost use Rattle.mls_start_text.specs.Looking.{IsReadAs};
ghost use Rattle.mls_start_faults.specs.Found.{by_file};
ghost use Rattle.mls_start_faults.specs.Permissions.{permissions_found, permissions_bytes};
ghost use Rattle.mls_start_faults.specs.PlaceRows.{repeated_bytes};
ghost use Rattle.mls_start_faults.specs.Repeated.{repeated_found};
ghost use Rattle.mls_start_file.specs.Says.{RefusesStart};

use crate::named::Named;
use crate::one_state::OfState;
use crate::row_answers::{form_of, rows_ended};
use crate::seeing::answer_state;
use crate::sources::read_source;
use mls_command_line::Source;
use mls_complete::complete;
use mls_could::list_brought;
use mls_files::{command_refused_so, load_hint, start_hint};
use mls_replay::{CommandFault, QuestionFault};
use mls_review::lint as linted;
use mls_rows::{Form, Listing};
use mls_start_faults::{places, repeated_members, repeated_permissions};
use mls_start_file::{LoadFault, Loaded, read_start};
use mls_terminal::{NO_MEMORY, Progress, refused};
use std::alloc::{AllocError, Global};
use std::process::ExitCode;

/// Tells which command completes a start file that lacks members, where it does.
fn tell_complete(rt: &HostRuntime, path: &str, bytes: &[u8], fault: LoadFault) {
    if !matches!(fault, LoadFault::Members) {
        return;
    }
    if let Ok(text) = complete(rt.alloc(), bytes) {
        drop(text);
        let _ = eprintln!(rt; "mls: mls complete {path} fills in what is left out");
    }
}

/// Prints the places where the fault of a refused start file applies, after the line of the fault.
fn lint_refused(progress: &mut Progress<'_>, path: &str, bytes: &[u8], fault: LoadFault) -> ExitCode
    requires { fault ≢ LoadFault.Memory → RefusesStart bytes.now fault }
{
    let rt = progress.rt();
    let form = form_of(progress);
    let found = match fault {
        LoadFault::Memory => Err(AllocError),
        fault => places(rt.alloc(), form, bytes, fault),
    };
    match found {
        Ok(rows) => {
            let refused = CommandFault::from(fault);
            let hint = load_hint(&refused, start_hint(bytes));
            let status = command_refused_so(rt, path, &refused, hint);
            let _ = progress.print(&rows);
            drop(rows);
            tell_complete(rt, path, bytes, fault);
            status
        }
        Err(_) => refused(rt, NO_MEMORY, 1),
    }
}

/// Two answers, one after the other: a positive one where both are.
pub(crate) fn joined(first: Listing, second: &Listing) -> Result<Listing, AllocError>
    ensures bytes { IfOk result (λ both. both.bytes.items ≡ first.bytes.items ++ second.now.bytes.items) }
    ensures positive { IfOk result (λ both. both.is_positive ≡ (first.is_positive && second.now.is_positive)) }
{
    let Listing {
        mut bytes,
        is_positive,
    } = first;
    bytes.extend_from_slice(&second.bytes)?;
    let is_positive = is_positive && second.is_positive;
    Ok(Listing { bytes, is_positive })
}

/// What a start file has more than once, in a form: members, then permissions. The answer is positive where there is
/// nothing.
fn repeated(alloc: Global, form: Form, bytes: &[u8]) -> Result<Listing, AllocError>
    ensures bytes { IfOk result (λ found. (j : Json) → (d : Data) → IsUtf8 bytes.now → document bytes.now ≡ Some j
        → IsReadAs bytes.now d → found.bytes.items ≡ repeated_bytes form j ++ permissions_bytes form d) }
    ensures positive { IfOk result (λ found. (j : Json) → (d : Data) → IsUtf8 bytes.now → document bytes.now ≡ Some j
        → IsReadAs bytes.now d
        → found.is_positive ≡ ((length (repeated_found j) == 0) && (length (by_file permissions_found d) == 0))) }
{
    let members = repeated_members(alloc, form, bytes)?;
    let permissions = repeated_permissions(alloc, form, bytes)?;
    let both = joined(members, &permissions);
    drop(permissions);
    both
}

/// What is suspicious in a start, in a form: what its permissions are not used for, and what untrusted subjects could
/// bring about that it doesn't permit. The answer is positive where there is nothing.
fn start_findings(alloc: Global, form: Form, loaded: &Loaded) -> Result<Listing, QuestionFault>
    ensures { IfOk result (λ found. FindsInStart loaded.now.names loaded.now.start form found.bytes.items
        found.is_positive) }
{
    let found = linted(alloc, form, loaded.names(), loaded.start())?;
    let state = loaded.start().opening(alloc)?;
    let brought = list_brought(alloc, form, loaded.names(), &state);
    drop(state);
    let brought = brought?;
    let both = joined(found, &brought);
    drop(brought);
    Ok(both?)
}

/// What is suspicious in a start file, and in the start that it says, in a form. The answer is positive where there is
/// nothing.
fn findings(
    alloc: Global,
    form: Form,
    bytes: &[u8],
    loaded: &Loaded,
) -> Result<Listing, QuestionFault>
    ensures { IfOk result (λ found. (j : Json) → (d : Data) → IsUtf8 bytes.now → document bytes.now ≡ Some j
        → IsReadAs bytes.now d
        → FindsInFile loaded.now.names loaded.now.start j d form found.bytes.items found.is_positive) }
{
    let twice = repeated(alloc, form, bytes)?;
    let found = start_findings(alloc, form, loaded)?;
    let both = joined(twice, &found);
    drop(found);
    Ok(both?)
}

/// Prints what is suspicious in a start and its file, or where the start file's fault applies.
fn lint_bytes(progress: &mut Progress<'_>, path: &str, bytes: &[u8]) -> ExitCode {
    let rt = progress.rt();
    let loaded = match read_start(rt.alloc(), bytes) {
        Ok(loaded) => loaded,
        Err(fault) => return lint_refused(progress, path, bytes, fault),
    };
    let form = form_of(progress);
    let done = findings(rt.alloc(), form, bytes, &loaded);
    drop(loaded);
    rows_ended(progress, &Named::files(path, ""), bytes, done)
}

/// Prints what is suspicious in a start and its file, or where the start file's fault applies.
fn lint_start(progress: &mut Progress<'_>, source: &Source<'_>) -> ExitCode {
    match read_source(progress, source) {
        Ok(bytes) => {
            progress.end();
            let status = lint_bytes(progress, source.start, &bytes.start);
            drop(bytes);
            status
        }
        Err(status) => status,
    }
}

/// Prints what is suspicious in the state that a journal leads to, where there is one, or else in a start and its file.
pub(crate) fn lint(progress: &mut Progress<'_>, source: &Source<'_>) -> ExitCode {
    match source.journal {
        Some(_) => answer_state(progress, source, OfState::Lint),
        None => lint_start(progress, source),
    }
}
