//! Why a line asks nothing.
ghost use Rattle.std.specs.Prelude.{◌≡◌};
ghost use Rattle.mls_lines.specs.Fault.{first_fault as first_of, both as both_parts, fault_text};

use thiserror::Error;

/// Why a line asks nothing. Where several faults apply, a line is refused for the first of these.
#[derive(Clone, Copy, Debug, PartialEq, Eq, Error)]
#[error("{}", self.text())]
pub enum LineFault {
    /// The line isn't of the form of a line.
    BadForm,
    /// A name isn't that of a subject or an object of the start, or a variable isn't bound.
    UnknownName,
    /// A label isn't one of its scheme, for whatever cause.
    BadLabel,
}

impl LineFault {
    /// What the fault is called.
    pub fn text(self) -> &'static str
        ensures { result.now ≡ fault_text self }
    {
        match self {
            LineFault::BadForm => "bad form",
            LineFault::UnknownName => "bad name",
            LineFault::BadLabel => "bad label",
        }
    }
}

/// The first of two faults, in their order.
fn first_fault(one: LineFault, other: LineFault) -> LineFault
    ensures { result ≡ first_of one other }
{
    match (one, other) {
        (LineFault::BadForm, _) | (_, LineFault::BadForm) => LineFault::BadForm,
        (LineFault::UnknownName, _) | (_, LineFault::UnknownName) => LineFault::UnknownName,
        (LineFault::BadLabel, LineFault::BadLabel) => LineFault::BadLabel,
    }
}

/// Both parts of a line, or the first of their faults.
pub(crate) fn both<T: Copy, U: Copy>(
    first: Result<T, LineFault>,
    second: Result<U, LineFault>,
) -> Result<(T, U), LineFault>
    ensures { result ≡ both_parts first second }
{
    match (first, second) {
        (Ok(one), Ok(other)) => Ok((one, other)),
        (Err(one), Err(other)) => Err(first_fault(one, other)),
        (Err(fault), Ok(_)) | (Ok(_), Err(fault)) => Err(fault),
    }
}
