//! The names that a start file has.
ghost use Rattle.std.specs.Prelude.{◌≡◌, map, IfOk};
ghost use Rattle.mls_start_text.specs.Texts.{subject_names, object_names};
ghost use Rattle.mls_start_text.specs.Views.{file_view};

use crate::file_text::FileText;
use std::alloc::{AllocError, Global};

impl<'a> FileText<'a> {
    /// The names of the subjects, in the order of their numbers.
    ///
    /// # Errors
    /// `AllocError` where an allocation failed.
    pub fn subject_names(&self, alloc: Global) -> Result<Vec<&'a str>, AllocError>
        ensures { IfOk result (λ names. map (λ name. name.now) names.items ≡ subject_names (file_view self.now)) }
    {
        let mut names = Vec::with_capacity(alloc, self.subjects.len())?;
        for subject in &self.subjects {
            names.push(subject.name)?;
        }
        Ok(names)
    }

    /// The names of the objects, in the order of their numbers.
    ///
    /// # Errors
    /// `AllocError` where an allocation failed.
    pub fn object_names(&self, alloc: Global) -> Result<Vec<&'a str>, AllocError>
        ensures { IfOk result (λ names. map (λ name. name.now) names.items ≡ object_names (file_view self.now)) }
    {
        let mut names = Vec::new(alloc);
        names.push(self.root.name)?;
        for child in &self.children {
            names.push(child.object.name)?;
        }
        Ok(names)
    }
}
