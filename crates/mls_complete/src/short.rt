//! A short start file's members, with what is left out filled in.
ghost use Rattle.std.specs.Prelude.{◌≡◌, ◌≢◌, ◌∷◌, [], codes, map, IfOk, IfErr, Some, None};
ghost use Rattle.serde_json.specs.Find.{get};
ghost use Rattle.serde_json.specs.View.{view};
ghost use Rattle.mls_start_text.specs.Each.{having, each_of};
ghost use Rattle.mls_start_text.specs.Looking.{texts_at, list_at};
ghost use Rattle.mls_start_text.specs.Texts.{numbered_profile, profile_in};
ghost use Rattle.mls_start_text.specs.Views.{scheme_view, subject_view, object_view, child_view, cell_view, file_view};
ghost use Rattle.mls_complete.specs.Short.{texts_or_none, short_scheme, short_integrity, short_subject, short_objects};
ghost use Rattle.mls_complete.specs.Short.{short_cells, lowest, file_extras, short_file};

use crate::looking::{has_member, list_in, member_count, number_in, one_where};
use crate::rows::{read_cells, read_children, read_subjects, root_of};
use mls_start_text::{
    CellText, ChildText, FileText, LoadFault, ObjectText, SchemeText, SubjectText,
};
use mls_tree::Profile;
use serde_json::Value;
use std::alloc::Global;

/// The level of an integrity scheme that is left out.
const ANY: &str = "any";

/// The texts in a member that is a list of texts.
///
/// # Errors
/// `Members` where the member is not there or no such list, `Memory` where an allocation failed.
fn read_texts<'a>(alloc: Global, value: &'a Value, key: &str) -> Result<Vec<&'a str>, LoadFault>
    ensures ok { IfOk result (λ texts. texts_at key.now (view value.now) ≡ Some (map (λ text. text.now) texts.items)) }
    ensures fault { IfErr result
        (λ fault. fault ≢ LoadFault.Memory → (fault ≡ LoadFault.Members) × (texts_at key.now (view value.now) ≡ None)) }
{
    let Some(list) = list_in(value, key) else {
        return Err(LoadFault::Members);
    };
    let mut texts = Vec::with_capacity(alloc, list.len())?;
    for value in list {
        let Some(text) = value.as_str() else {
            return Err(LoadFault::Members);
        };
        texts.push(text)?;
    }
    Ok(texts)
}

/// The texts in a member that is a list of texts, none where the member isn't there.
fn read_texts_or_none<'a>(
    alloc: Global,
    value: &'a Value,
    key: &str,
) -> Result<Vec<&'a str>, LoadFault>
    ensures ok { IfOk result
        (λ texts. texts_or_none key.now (view value.now) ≡ Some (map (λ text. text.now) texts.items)) }
    ensures fault { IfErr result (λ fault. fault ≢ LoadFault.Memory →
        (fault ≡ LoadFault.Members) × (texts_or_none key.now (view value.now) ≡ None)) }
{
    if has_member(value, key) {
        read_texts(alloc, value, key)
    } else {
        Ok(Vec::new(alloc))
    }
}

/// The scheme of a value, whose categories may be left out.
fn read_scheme<'a>(alloc: Global, value: &'a Value) -> Result<SchemeText<'a>, LoadFault>
    ensures ok { IfOk result (λ text. short_scheme (view value.now) ≡ Some (scheme_view text)) }
    ensures fault { IfErr result
        (λ fault. fault ≢ LoadFault.Memory → (fault ≡ LoadFault.Members) × (short_scheme (view value.now) ≡ None)) }
{
    if member_count(value) != 1 + one_where(value, "categories") {
        return Err(LoadFault::Members);
    }
    let levels = read_texts(alloc, value, "levels")?;
    let categories = read_texts_or_none(alloc, value, "categories")?;
    Ok(SchemeText { levels, categories })
}

/// The security scheme.
fn read_security<'a>(alloc: Global, value: &'a Value) -> Result<SchemeText<'a>, LoadFault>
    ensures ok { IfOk result (λ scheme. having (get (codes "security") (view value.now)) short_scheme
        ≡ Some (scheme_view scheme)) }
    ensures fault { IfErr result
        (λ fault. fault ≢ LoadFault.Memory → (fault ≡ LoadFault.Members)
        × (having (get (codes "security") (view value.now)) short_scheme ≡ None)) }
{
    match value.get("security") {
        Some(member) => read_scheme(alloc, member),
        None => Err(LoadFault::Members),
    }
}

/// The scheme of one level.
fn one_level<'a>(alloc: Global) -> Result<SchemeText<'a>, LoadFault>
    ensures ok { IfOk result (λ text. scheme_view text ≡ record { levels = codes "any" ∷ []; categories = [] }) }
    ensures fault { IfErr result (λ fault. fault ≡ LoadFault.Memory) }
{
    let mut levels = Vec::new(alloc);
    levels.push(ANY)?;
    let categories = Vec::new(alloc);
    Ok(SchemeText { levels, categories })
}

/// The integrity scheme: one level where the member isn't there.
fn read_integrity<'a>(alloc: Global, value: &'a Value) -> Result<SchemeText<'a>, LoadFault>
    ensures ok { IfOk result (λ scheme. short_integrity (view value.now) ≡ Some (scheme_view scheme)) }
    ensures fault { IfErr result
        (λ fault. fault ≢ LoadFault.Memory → (fault ≡ LoadFault.Members) × (short_integrity (view value.now) ≡ None)) }
{
    match value.get("integrity") {
        Some(member) => read_scheme(alloc, member),
        None => one_level(alloc),
    }
}

/// The lowest of some levels, an empty text where there is none.
fn lowest<'a>(levels: &[&'a str]) -> &'a str
    ensures { result.now ≡ lowest (map (λ level. level.now) levels.now) }
{
    match levels {
        [level, ..] => *level,
        [] => "",
    }
}

/// The profile of a number, 1 or 2.
fn numbered_profile(number: u64) -> Option<Profile>
    ensures { result ≡ numbered_profile number }
{
    if number == 1 {
        Some(Profile::One)
    } else if number == 2 {
        Some(Profile::Two)
    } else {
        None
    }
}

/// The profile, profile 1 where the member isn't there.
fn read_profile(value: &Value) -> Option<Profile>
    ensures { result ≡ profile_in (view value.now) }
{
    if has_member(value, "profile") {
        numbered_profile(number_in(value, "profile")?)
    } else {
        Some(Profile::One)
    }
}

/// The root, and the objects below it.
fn read_objects<'a>(
    alloc: Global,
    value: &'a Value,
    least: &'a str,
) -> Result<(ObjectText<'a>, Vec<ChildText<'a>>), LoadFault>
    ensures ok { IfOk result (λ rows. having (list_at (codes "objects") (view value.now)) (short_objects least.now)
        ≡ Some (object_view rows.0, map child_view rows.1.items)) }
    ensures fault { IfErr result
        (λ fault. fault ≢ LoadFault.Memory → (fault ≡ LoadFault.Members)
        × (having (list_at (codes "objects") (view value.now)) (short_objects least.now) ≡ None)) }
{
    let Some(list) = list_in(value, "objects") else {
        return Err(LoadFault::Members);
    };
    let Some((first, others)) = list.split_first() else {
        return Err(LoadFault::Members);
    };
    let Some(root) = root_of(first, least) else {
        return Err(LoadFault::Members);
    };
    let children = read_children(alloc, others, least, root.name)?;
    Ok((root, children))
}

/// The cells in a member, none where it isn't there.
fn read_table<'a>(
    alloc: Global,
    value: &'a Value,
    key: &str,
) -> Result<Vec<CellText<'a>>, LoadFault>
    ensures ok { IfOk result (λ rows. short_cells key.now (view value.now) ≡ Some (map cell_view rows.items)) }
    ensures fault { IfErr result
        (λ fault. fault ≢ LoadFault.Memory → (fault ≡ LoadFault.Members)
        × (short_cells key.now (view value.now) ≡ None)) }
{
    if !has_member(value, key) {
        return Ok(Vec::new(alloc));
    }
    match list_in(value, key) {
        Some(list) => read_cells(alloc, list),
        None => Err(LoadFault::Members),
    }
}

/// The subjects.
fn read_all_subjects<'a>(
    alloc: Global,
    value: &'a Value,
    least: &'a str,
) -> Result<Vec<SubjectText<'a>>, LoadFault>
    ensures ok { IfOk result (λ rows.
        having (list_at (codes "subjects") (view value.now)) (each_of (short_subject least.now))
        ≡ Some (map subject_view rows.items)) }
    ensures fault { IfErr result
        (λ fault. fault ≢ LoadFault.Memory → (fault ≡ LoadFault.Members)
        × (having (list_at (codes "subjects") (view value.now)) (each_of (short_subject least.now)) ≡ None)) }
{
    match list_in(value, "subjects") {
        Some(list) => read_subjects(alloc, list, least),
        None => Err(LoadFault::Members),
    }
}

/// How many members of a file are there that may be left out.
fn file_extras(value: &Value) -> usize
    ensures { result ≡ file_extras (view value.now) }
{
    one_where(value, "integrity")
        + one_where(value, "matrix")
        + one_where(value, "profile")
        + one_where(value, "accesses")
}

/// The start file of a tree that has a short start file's members.
///
/// # Errors
/// `Members` where it hasn't, `Memory` where an allocation failed.
pub(crate) fn read_short<'a>(alloc: Global, tree: &'a Value) -> Result<FileText<'a>, LoadFault>
    ensures ok { IfOk result (λ file. short_file (view tree.now) ≡ Some (file_view file)) }
    ensures fault { IfErr result
        (λ fault. fault ≢ LoadFault.Memory → (fault ≡ LoadFault.Members) × (short_file (view tree.now) ≡ None)) }
{
    if member_count(tree) != 3 + file_extras(tree) {
        return Err(LoadFault::Members);
    }
    let Some(profile) = read_profile(tree) else {
        return Err(LoadFault::Members);
    };
    let security = read_security(alloc, tree)?;
    let integrity = read_integrity(alloc, tree)?;
    let least = lowest(&integrity.levels);
    let subjects = read_all_subjects(alloc, tree, least)?;
    let (root, children) = read_objects(alloc, tree, least)?;
    let cells = read_table(alloc, tree, "matrix")?;
    let accesses = read_table(alloc, tree, "accesses")?;
    Ok(FileText {
        profile,
        security,
        integrity,
        subjects,
        root,
        children,
        cells,
        accesses,
    })
}
