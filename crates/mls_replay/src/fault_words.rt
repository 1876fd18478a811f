//! The numbers and names of the faults that a fault line tells of.
ghost use Rattle.std.specs.Prelude.{◌≡◌};
ghost use Rattle.mls_replay.specs.FaultLines.{scheme_words as words_of_scheme, start_words as words_of_start};
ghost use Rattle.mls_replay.specs.FaultLines.{entry_words as words_of_entry};

use mls_journal::EntryFault;
use mls_labels::SchemeFault;
use mls_start::StartFault;

/// The number and the name of a scheme's fault.
pub(crate) fn scheme_words(fault: SchemeFault) -> &'static str
    ensures { result.now ≡ words_of_scheme fault }
{
    match fault {
        SchemeFault::NoLevels => "1 NoLevels",
        SchemeFault::TooManyLevels => "2 TooManyLevels",
        SchemeFault::TooManyCategories => "3 TooManyCategories",
        SchemeFault::BadName => "4 BadName",
        SchemeFault::RepeatedName => "5 RepeatedName",
        SchemeFault::Memory => "6 Memory",
    }
}

/// The number and the name of a start's fault.
pub(crate) fn start_words(fault: StartFault) -> &'static str
    ensures { result.now ≡ words_of_start fault }
{
    match fault {
        StartFault::NoSubjects => "1 NoSubjects",
        StartFault::TooManySubjects => "2 TooManySubjects",
        StartFault::TooManyObjects => "3 TooManyObjects",
        StartFault::BadLabel => "4 BadLabel",
        StartFault::BadParent => "5 BadParent",
        StartFault::CurrentAboveMaximum => "6 CurrentAboveMaximum",
        StartFault::NotCompatible => "7 NotCompatible",
        StartFault::IntegrityAboveParent => "8 IntegrityAboveParent",
        StartFault::NoSuchCell => "9 NoSuchCell",
        StartFault::NotSecure => "10 NotSecure",
    }
}

/// The number and the name of a fault of a journal's line.
pub(crate) fn entry_words(fault: EntryFault) -> &'static str
    ensures { result.now ≡ words_of_entry fault }
{
    match fault {
        EntryFault::BadForm => "1 BadForm",
        EntryFault::BadNumber => "2 BadNumber",
        EntryFault::BadLabel => "3 BadLabel",
        EntryFault::BadReply => "4 BadReply",
    }
}
