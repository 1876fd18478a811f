//! A start file's members, as the file has them.
ghost use Rattle.std.specs.Prelude.{◌≡◌, ◌≢◌, map, IfOk, IfErr, Some, None};
ghost use Rattle.serde_json.specs.View.{view};
ghost use Rattle.mls_start_text.specs.Texts.{scheme_in, subjects_in, objects_in, cells_in, accesses_in};
ghost use Rattle.mls_start_text.specs.Texts.{numbered_profile, profile_in, one_where, extra_count, file_of};
ghost use Rattle.mls_start_text.specs.Views.{scheme_view, subject_view, object_view, child_view, cell_view, file_view};

use crate::cell_text::CellText;
use crate::load_fault::LoadFault;
use crate::looking::{has_member, list_in, member_count, number_in};
use crate::object_text::{ChildText, ObjectText};
use crate::scheme_text::SchemeText;
use crate::subject_text::SubjectText;
use mls_tree::Profile;
use serde_json::Value;
use std::alloc::Global;

mod naming;

/// A start file: its profile, schemes, subjects, objects, cells and accesses.
#[derive(Drop)]
pub struct FileText<'a> {
    pub profile: Profile,
    pub security: SchemeText<'a>,
    pub integrity: SchemeText<'a>,
    pub subjects: Vec<SubjectText<'a>>,
    pub root: ObjectText<'a>,
    pub children: Vec<ChildText<'a>>,
    pub cells: Vec<CellText<'a>>,
    pub accesses: Vec<CellText<'a>>,
}

/// The scheme in a member.
///
/// # Errors
/// `Members` where the member isn't there or hasn't a scheme's members, `Memory` where an allocation failed.
fn read_scheme<'a>(alloc: Global, value: &'a Value, key: &str) -> Result<SchemeText<'a>, LoadFault>
    ensures ok { IfOk result (λ scheme. scheme_in key.now (view value.now) ≡ Some (scheme_view scheme)) }
    ensures fault { IfErr result
        (λ fault. fault ≢ LoadFault.Memory → (fault ≡ LoadFault.Members)
        × (scheme_in key.now (view value.now) ≡ None)) }
{
    match value.get(key) {
        Some(member) => SchemeText::read(alloc, member),
        None => Err(LoadFault::Members),
    }
}

/// The subjects.
///
/// # Errors
/// `Members` where the file has no list of subjects, `Memory` where an allocation failed.
fn read_subjects<'a>(alloc: Global, value: &'a Value) -> Result<Vec<SubjectText<'a>>, LoadFault>
    ensures ok { IfOk result (λ rows. subjects_in (view value.now) ≡ Some (map subject_view rows.items)) }
    ensures fault { IfErr result
        (λ fault. fault ≢ LoadFault.Memory → (fault ≡ LoadFault.Members) × (subjects_in (view value.now) ≡ None)) }
{
    match list_in(value, "subjects") {
        Some(list) => SubjectText::read_all(alloc, list),
        None => Err(LoadFault::Members),
    }
}

/// The root, and the objects below it.
///
/// # Errors
/// `Members` where the file has no list of objects with a root, `Memory` where an allocation failed.
fn read_objects<'a>(
    alloc: Global,
    value: &'a Value,
) -> Result<(ObjectText<'a>, Vec<ChildText<'a>>), LoadFault>
    ensures ok { IfOk result
        (λ rows. objects_in (view value.now) ≡ Some (object_view rows.0, map child_view rows.1.items)) }
    ensures fault { IfErr result
        (λ fault. fault ≢ LoadFault.Memory → (fault ≡ LoadFault.Members) × (objects_in (view value.now) ≡ None)) }
{
    let Some(list) = list_in(value, "objects") else {
        return Err(LoadFault::Members);
    };
    let Some((first, others)) = list.split_first() else {
        return Err(LoadFault::Members);
    };
    let Some(root) = ObjectText::root(first) else {
        return Err(LoadFault::Members);
    };
    let children = ChildText::read_all(alloc, others)?;
    Ok((root, children))
}

/// The cells in a member.
///
/// # Errors
/// `Members` where the member is no list of cells, `Memory` where an allocation failed.
fn read_cells<'a>(
    alloc: Global,
    value: &'a Value,
    key: &str,
) -> Result<Vec<CellText<'a>>, LoadFault>
    ensures ok { IfOk result (λ rows. cells_in key.now (view value.now) ≡ Some (map cell_view rows.items)) }
    ensures fault { IfErr result (λ fault. fault ≢ LoadFault.Memory →
        (fault ≡ LoadFault.Members) × (cells_in key.now (view value.now) ≡ None)) }
{
    match list_in(value, key) {
        Some(list) => CellText::read_all(alloc, list),
        None => Err(LoadFault::Members),
    }
}

/// The current accesses, none where the member isn't there.
///
/// # Errors
/// `Members` where the member is there and is no list of cells, `Memory` where an allocation failed.
fn read_accesses<'a>(alloc: Global, value: &'a Value) -> Result<Vec<CellText<'a>>, LoadFault>
    ensures ok { IfOk result (λ rows. accesses_in (view value.now) ≡ Some (map cell_view rows.items)) }
    ensures fault { IfErr result (λ fault. fault ≢ LoadFault.Memory →
        (fault ≡ LoadFault.Members) × (accesses_in (view value.now) ≡ None)) }
{
    if has_member(value, "accesses") {
        read_cells(alloc, value, "accesses")
    } else {
        Ok(Vec::new(alloc))
    }
}

/// The profile of a number, 1 or 2.
fn numbered_profile(number: u64) -> Option<Profile>
    ensures { result ≡ numbered_profile number }
{
    if number == 1 {
        Some(Profile::One)
    } else if number == 2 {
        Some(Profile::Two)
    } else {
        None
    }
}

/// The profile, profile 1 where the member isn't there.
fn read_profile(value: &Value) -> Option<Profile>
    ensures { result ≡ profile_in (view value.now) }
{
    if has_member(value, "profile") {
        numbered_profile(number_in(value, "profile")?)
    } else {
        Some(Profile::One)
    }
}

/// One for a member that is there.
fn one_where(value: &Value, key: &str) -> usize
    ensures { result ≡ one_where key.now (view value.now) }
{
    if has_member(value, key) { 1 } else { 0 }
}

/// How many of the members are there that may be left out.
fn extra_count(value: &Value) -> usize
    ensures { result ≡ extra_count (view value.now) }
{
    one_where(value, "profile") + one_where(value, "accesses")
}

impl FileText<'_> {
    /// The start file of a tree, where it has a start file's members.
    ///
    /// # Errors
    /// `Members` where it has not, `Memory` where an allocation failed.
    pub fn read<'a>(alloc: Global, tree: &'a Value) -> Result<FileText<'a>, LoadFault>
        ensures ok { IfOk result (λ file. file_of (view tree.now) ≡ Some (file_view file)) }
        ensures fault { IfErr result
            (λ fault. fault ≢ LoadFault.Memory → (fault ≡ LoadFault.Members) × (file_of (view tree.now) ≡ None)) }
    {
        if member_count(tree) != 5 + extra_count(tree) {
            return Err(LoadFault::Members);
        }
        let Some(profile) = read_profile(tree) else {
            return Err(LoadFault::Members);
        };
        let security = read_scheme(alloc, tree, "security")?;
        let integrity = read_scheme(alloc, tree, "integrity")?;
        let subjects = read_subjects(alloc, tree)?;
        let (root, children) = read_objects(alloc, tree)?;
        let cells = read_cells(alloc, tree, "matrix")?;
        let accesses = read_accesses(alloc, tree)?;
        Ok(FileText {
            profile,
            security,
            integrity,
            subjects,
            root,
            children,
            cells,
            accesses,
        })
    }
}
