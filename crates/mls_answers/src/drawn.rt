//! The labels of a state, drawn.
ghost use Rattle.std.specs.Prelude.{◌≡◌, true, IfErr, IfOk};
ghost use Rattle.mls_replay.specs.declared.command.CommandFault.TheVariants.{Memory};
ghost use Rattle.mls_replay.specs.declared.question_fault.QuestionFault.TheVariants.{Files};
ghost use Rattle.mls_review.specs.Drawing.{drawing};
ghost use Rattle.mls_seen.specs.Files.{SeesThat};

use mls_replay::QuestionFault;
use mls_review::lattice as drawn;
use mls_rows::Listing;
use mls_seen::Seen;
use std::alloc::Global;

/// The labels of the state that is seen.
fn draw(alloc: Global, seen: &Seen) -> Result<Listing, QuestionFault>
    ensures bytes { IfOk result (λ answer. answer.bytes.items ≡ drawing seen.now.names seen.now.state) }
    ensures positive { IfOk result (λ answer. answer.is_positive ≡ true) }
    ensures fault { IfErr result (λ fault. fault ≡ Files Memory) }
{
    let answer = drawn(alloc, seen.names(), seen.state())?;
    Ok(Listing {
        bytes: answer.text.into_bytes(),
        is_positive: true,
    })
}

/// The security labels of the state that is seen and their order, as DOT. The answer is that of
/// [`lattice`](mls_review::lattice), a positive one.
///
/// # Errors
/// `Files` with `Memory` where an allocation failed.
pub fn lattice(alloc: Global, seen: &Seen) -> Result<Listing, QuestionFault>
    ensures bytes { IfOk result (λ answer. SeesThat seen.now.files seen.now.at
        (λ r. answer.bytes.items ≡ drawing r.names r.state)) }
    ensures positive { IfOk result (λ answer. answer.is_positive ≡ true) }
    ensures fault { IfErr result (λ fault. fault ≡ Files Memory) }
{
    // that it is of the files
    let _ = seen.names();
    draw(alloc, seen)
}
