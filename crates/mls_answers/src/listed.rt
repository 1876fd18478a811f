//! What there is in a state.
ghost use Rattle.std.specs.Prelude.{◌≡◌, true, IfErr, IfOk};
ghost use Rattle.mls_answers.specs.States.{objects_text, state_bytes};
ghost use Rattle.mls_replay.specs.declared.command.CommandFault.TheVariants.{Memory};
ghost use Rattle.mls_replay.specs.declared.question_fault.QuestionFault.TheVariants.{Files};
ghost use Rattle.mls_seen.specs.Files.{SeesThat};

use mls_lines::Names;
use mls_replay::QuestionFault;
use mls_rows::{Form, Listing, Output};
use mls_seen::Seen;
use mls_shared_rows::with_state;
use mls_snapshots::state_text;
use mls_state::State;
use std::alloc::{AllocError, Global};

/// The JSON objects of what there is in a state, each in a line.
fn objects(alloc: Global, names: &Names, state: &State) -> Result<Vec<u8>, AllocError>
    ensures { IfOk result (λ bytes. bytes.items ≡ objects_text names.now state.now) }
{
    let output = with_state(alloc, Output::new(alloc, Form::Json), names, state)?;
    Ok(output.into_bytes())
}

/// What there is in a state, in a form: the text of a state, or objects.
fn written(alloc: Global, form: Form, names: &Names, state: &State) -> Result<Vec<u8>, AllocError>
    ensures { IfOk result (λ bytes. bytes.items ≡ state_bytes form names.now state.now) }
{
    match form {
        Form::Text => Ok(state_text(alloc, names, state)?.into_bytes()),
        Form::Json => objects(alloc, names, state),
    }
}

/// What there is in the state that is seen.
fn list(alloc: Global, form: Form, seen: &Seen) -> Result<Listing, QuestionFault>
    ensures bytes { IfOk result
        (λ answer. answer.bytes.items ≡ state_bytes form seen.now.names seen.now.state) }
    ensures positive { IfOk result (λ answer. answer.is_positive ≡ true) }
    ensures fault { IfErr result (λ fault. fault ≡ Files Memory) }
{
    let bytes = written(alloc, form, seen.names(), seen.state())?;
    Ok(Listing {
        bytes,
        is_positive: true,
    })
}

/// What there is in the state that is seen, in a form: a line or an object for each thing. The answer is a positive
/// one.
///
/// # Errors
/// `Files` with `Memory` where an allocation failed.
pub fn state(alloc: Global, form: Form, seen: &Seen) -> Result<Listing, QuestionFault>
    ensures bytes { IfOk result (λ answer. SeesThat seen.now.files seen.now.at
        (λ r. answer.bytes.items ≡ state_bytes form r.names r.state)) }
    ensures positive { IfOk result (λ answer. answer.is_positive ≡ true) }
    ensures fault { IfErr result (λ fault. fault ≡ Files Memory) }
{
    // that it is of the files
    let _ = seen.names();
    list(alloc, form, seen)
}
