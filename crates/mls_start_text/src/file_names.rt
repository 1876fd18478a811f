//! The names in a start file: its schemes, and its subjects and objects.
ghost use Rattle.std.specs.Prelude.{◌≡◌, ◌≢◌, ◌≤◌, length, IfOk, IfErr, OnOk, Some, None};
ghost use Rattle.mls_tables.specs.declared.limits.TheConstants.{MAX_SUBJECTS, MAX_OBJECTS};
ghost use Rattle.mls_start_text.specs.NameViews.{names_view};
ghost use Rattle.mls_start_text.specs.Naming.{names_fault, names_of};
ghost use Rattle.mls_start_text.specs.Views.{file_view};

use crate::file_text::FileText;
use crate::load_fault::LoadFault;
use crate::name_sets::NameSets;
use crate::schemes::Schemes;
use mls_lines::Names;
use std::alloc::Global;

/// The names in a start file, however many there are.
#[derive(Drop)]
pub struct FileNames {
    pub schemes: Schemes,
    pub sets: NameSets,
}

impl FileNames {
    /// The names in a file.
    ///
    /// # Errors
    /// `Scheme` where a scheme is refused, `Name` where a name isn't one or stands twice, `Memory` where an allocation
    /// failed.
    pub fn make(alloc: Global, file: &FileText<'_>) -> Result<FileNames, LoadFault>
        ensures ok { IfOk result (λ names. names_view names ≡ names_of (file_view file.now)) }
        ensures faultless { OnOk result (names_fault (file_view file.now) ≡ None) }
        ensures fault { IfErr result
            (λ fault. fault ≢ LoadFault.Memory → names_fault (file_view file.now) ≡ Some fault) }
    {
        let schemes = Schemes::make(alloc, file)?;
        match NameSets::make(alloc, file) {
            Ok(sets) => Ok(FileNames { schemes, sets }),
            Err(fault) => {
                drop(schemes);
                Err(fault)
            }
        }
    }

    /// The names, where they aren't too many.
    pub fn into_names(self) -> Names
        requires subjects { length self.sets.subjects ≤ MAX_SUBJECTS }
        requires objects { length self.sets.objects ≤ MAX_OBJECTS }
        ensures { result ≡ names_view self }
    {
        let FileNames { schemes, sets } = self;
        Names::of_sets(
            sets.subjects,
            sets.objects,
            schemes.security,
            schemes.integrity,
        )
    }
}
