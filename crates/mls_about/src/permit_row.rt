//! The permissions of a subject as rows.
ghost use Rattle.std.specs.Prelude.{◌≡◌, ◌++◌, string_bytes, IfOk, OnOk};
ghost use Rattle.mls_explain_text.specs.Who.{releases_of};
ghost use Rattle.mls_rows.specs.Rows.{bytes_of, form_of};
ghost use Rattle.mls_about.specs.Permissions.{permission_bytes, permission_line, permission_members};
ghost use Rattle.mls_about.specs.Permissions.{permit_bytes};

use crate::permission::Permission;
use json::Writer;
use mls_explain::releases;
use mls_explain_text::{push_outcome, write_outcome};
use mls_lines::Names;
use mls_marks::Marks;
use mls_requests::mode_word;
use mls_rows::{Output, Told, write_access};
use mls_shared_rows::with_kind;
use mls_state::State;
use mls_tables::{Mode, ObjectId, SubjectId};
use mls_wording::{push_object, push_subject};
use std::alloc::{AllocError, Global};

/// A permission, with what its get would be answered.
#[derive(Drop)]
pub(crate) struct PermitRow {
    pub alloc: Global,
    pub permission: Permission,
    /// What the subject has to release before it takes the label, by object and mode.
    pub releases: Vec<(SubjectId, ObjectId, Mode)>,
}

impl PermitRow {
    /// The row of a permission in this state.
    fn of(alloc: Global, state: &State, permission: &Permission) -> Result<PermitRow, AllocError>
        ensures permission { IfOk result (λ row. row.permission ≡ permission.now) }
        ensures releases { IfOk result (λ row. row.releases.items ≡ releases_of state.now permission.now.prospect) }
    {
        let prospect = &permission.prospect;
        let releases = releases(alloc, state, prospect.subject, &prospect.way)?;
        let permission = *permission;
        Ok(PermitRow {
            alloc,
            permission,
            releases,
        })
    }
}

/// Appends the line of a permission: `permit SUBJECT MODE OBJECT: ` and what `who` says of it.
fn push_permission(
    text: &mut String,
    names: &Names,
    permission: &Permission,
    releases: &[(SubjectId, ObjectId, Mode)],
) -> Result<(), AllocError>
    ensures { OnOk result
        (string_bytes text.new ≡ string_bytes text.old ++ permission_line names.now permission.now releases.now) }
{
    text.push_str("permit ")?;
    push_subject(text, names, permission.prospect.subject)?;
    text.push_str(" ")?;
    text.push_str(mode_word(permission.prospect.mode))?;
    text.push_str(" ")?;
    push_object(text, names, permission.object)?;
    text.push_str(": ")?;
    push_outcome(text, names, &permission.prospect, releases)
}

impl Told for PermitRow {
    ghost line = { λ names marks r. permission_line names r.permission r.releases.items };

    ghost members = { λ names marks r. permission_members names r.permission r.releases.items };

    fn push_line(
        &self,
        text: &mut String,
        names: &Names,
        _marks: Option<&Marks>,
    ) -> Result<(), AllocError> {
        push_permission(text, names, &self.permission, &self.releases)
    }

    fn write_members(
        &self,
        writer: &mut Writer,
        names: &Names,
        _marks: Option<&Marks>,
    ) -> Result<(), AllocError> {
        let prospect = &self.permission.prospect;
        let access = (prospect.subject, self.permission.object, prospect.mode);
        write_access(writer, names, access)?;
        write_outcome(
            writer,
            self.alloc,
            names,
            prospect.reply,
            prospect.way,
            &self.releases,
        )
    }
}

/// Adds the row of a permission in this state.
fn with_permission(
    alloc: Global,
    output: Output,
    names: &Names,
    state: &State,
    permission: &Permission,
) -> Result<Output, AllocError>
    ensures form { IfOk result (λ new. form_of new ≡ form_of output) }
    ensures bytes { IfOk result (λ new. bytes_of new
        ≡ bytes_of output ++ permission_bytes (form_of output) names.now state.now permission.now) }
{
    let row = PermitRow::of(alloc, state, permission)?;
    let new = with_kind(output, names, None, "permit", &row);
    drop(row);
    new
}

/// Adds the rows of some permissions in this state.
pub(crate) fn with_permissions(
    alloc: Global,
    output: Output,
    names: &Names,
    state: &State,
    found: &[Permission],
) -> Result<Output, AllocError>
    ensures form { IfOk result (λ new. form_of new ≡ form_of output) }
    ensures bytes { IfOk result (λ new. bytes_of new
        ≡ bytes_of output ++ permit_bytes (form_of output) names.now state.now found.now) }
{
    let mut written = output;
    for permission in found {
        written = with_permission(alloc, written, names, state, permission)?;
    }
    Ok(written)
}
