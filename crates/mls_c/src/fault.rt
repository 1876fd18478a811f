//! Why a start, a journal or a state is refused, in numbers.
ghost use Rattle.std.specs.Prelude.{◌≡◌};
ghost use Rattle.mls_c.specs.Faults.{number_of_scheme_fault, number_of_start_fault, start_fault_numbers};
ghost use Rattle.mls_c.specs.Resumed.{number_of_entry_fault, line_fault_numbers};

use mls_journal::EntryFault;
use mls_labels::SchemeFault;
use mls_start::StartFault;
use mls_start_file::LoadFault;

/// Why a start, a journal or a state is refused: the kind of the fault, a number that says more, and the place.
#[repr(C)]
#[derive(Clone, Copy)]
pub struct FaultNumbers {
    pub kind: u16,
    pub number: u16,
    pub place: u64,
}

/// The number of a scheme's fault.
fn number_of_scheme_fault(fault: SchemeFault) -> u16
    ensures { result ≡ number_of_scheme_fault fault }
{
    match fault {
        SchemeFault::NoLevels => 1,
        SchemeFault::TooManyLevels => 2,
        SchemeFault::TooManyCategories => 3,
        SchemeFault::BadName => 4,
        SchemeFault::RepeatedName => 5,
        SchemeFault::Memory => 6,
    }
}

/// The number of a fault of a start's rows.
fn number_of_start_fault(fault: StartFault) -> u16
    ensures { result ≡ number_of_start_fault fault }
{
    match fault {
        StartFault::NoSubjects => 1,
        StartFault::TooManySubjects => 2,
        StartFault::TooManyObjects => 3,
        StartFault::BadLabel => 4,
        StartFault::BadParent => 5,
        StartFault::CurrentAboveMaximum => 6,
        StartFault::NotCompatible => 7,
        StartFault::IntegrityAboveParent => 8,
        StartFault::NoSuchCell => 9,
        StartFault::NotSecure => 10,
    }
}

/// The number of the fault of a journal's line.
fn number_of_entry_fault(fault: EntryFault) -> u16
    ensures { result ≡ number_of_entry_fault fault }
{
    match fault {
        EntryFault::BadForm => 1,
        EntryFault::BadNumber => 2,
        EntryFault::BadLabel => 3,
        EntryFault::BadReply => 4,
    }
}

impl FaultNumbers {
    /// A start file's fault in numbers.
    pub(crate) fn of_start(fault: LoadFault) -> FaultNumbers
        ensures { result ≡ start_fault_numbers fault }
    {
        let (kind, number) = match fault {
            LoadFault::Json => (1, 0),
            LoadFault::Members => (2, 0),
            LoadFault::Scheme(cause) => (3, number_of_scheme_fault(cause)),
            LoadFault::Name => (4, 0),
            LoadFault::Label => (5, 0),
            LoadFault::Unknown => (6, 0),
            LoadFault::Start(cause) => (7, number_of_start_fault(cause)),
            LoadFault::Memory => (8, 0),
        };
        FaultNumbers {
            kind,
            number,
            place: 0,
        }
    }

    /// The fault of the line of a journal that stands after so many others, in numbers.
    pub(crate) fn of_line(place: u64, fault: EntryFault) -> FaultNumbers
        ensures { result ≡ line_fault_numbers place fault }
    {
        FaultNumbers {
            kind: number_of_entry_fault(fault),
            number: 0,
            place,
        }
    }
}
