//! Labels that conditions compare, in numbers.
ghost use Rattle.std.specs.Prelude.{◌≡◌};
ghost use Rattle.mls_c.specs.Conditions.{numbers_of_term, no_term};
ghost use Rattle.mls_c.specs.Labels.{numbers_of_label};

use crate::label::LabelNumbers;
use mls_explain::Term;
use mls_labels::Label;

/// A label that a condition compares: the kind of what it is the label of, the number of the object or the subject, and
/// the label. Kind 0 is none.
#[repr(C)]
#[derive(Clone, Copy)]
pub struct TermNumbers {
    pub kind: u16,
    pub of: u16,
    pub label: LabelNumbers,
}

impl TermNumbers {
    /// The numbers that stand where no label is compared.
    pub(crate) fn none() -> TermNumbers
        ensures { result ≡ no_term }
    {
        TermNumbers {
            kind: 0,
            of: 0,
            label: LabelNumbers::none(),
        }
    }

    /// The numbers of these parts.
    fn with(kind: u16, of: u16, label: Label) -> TermNumbers
        ensures { result ≡ record { kind = kind; of = of; label = numbers_of_label label } }
    {
        TermNumbers {
            kind,
            of,
            label: LabelNumbers::of(label),
        }
    }

    /// A label that is compared, in numbers.
    pub(crate) fn of(term: Term) -> TermNumbers
        ensures { result ≡ numbers_of_term term }
    {
        match term {
            Term::Maximum(l) => TermNumbers::with(1, 0, l.label()),
            Term::Current(l) => TermNumbers::with(2, 0, l.label()),
            Term::Security(l) => TermNumbers::with(3, 0, l.label()),
            Term::Object(l, o) => TermNumbers::with(4, o.number(), l.label()),
            Term::Integrity(i) => TermNumbers::with(5, 0, i.label()),
            Term::ObjectIntegrity(i, o) => TermNumbers::with(6, o.number(), i.label()),
            Term::SubjectIntegrity(i, s) => TermNumbers::with(7, s.number(), i.label()),
        }
    }
}
