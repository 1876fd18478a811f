//! Subjects and objects, as a page names them.
ghost use Rattle.std.specs.Prelude.{◌≡◌, OnOk};
ghost use Rattle.mls_markup.specs.Drafts.{added};
ghost use Rattle.mls_markup.specs.Trees.{Words};
ghost use Rattle.mls_wording.specs.Wording.{object_text, subject_text};

use mls_lines::Names;
use mls_markup::Page;
use mls_tables::{ObjectId, SubjectId};
use mls_wording::{push_object, push_subject};
use std::alloc::AllocError;

/// Appends the name of a subject.
pub(crate) fn add_subject(page: &mut Page, names: &Names, s: SubjectId) -> Result<(), AllocError>
    ensures { OnOk result (page.new ≡ added page.old (Words (subject_text names.now s))) }
{
    let mut name = String::new(page.alloc());
    push_subject(&mut name, names, s)?;
    let done = page.text(&name);
    drop(name);
    done
}

/// Appends the name of an object.
pub(crate) fn add_object(page: &mut Page, names: &Names, o: ObjectId) -> Result<(), AllocError>
    ensures { OnOk result (page.new ≡ added page.old (Words (object_text names.now o))) }
{
    let mut name = String::new(page.alloc());
    push_object(&mut name, names, o)?;
    let done = page.text(&name);
    drop(name);
    done
}
