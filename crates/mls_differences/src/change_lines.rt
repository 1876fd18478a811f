//! The lines of what two starts both have, but otherwise.
ghost use Rattle.std.specs.Prelude.{◌≡◌, ◌++◌, codes, string_bytes, OnOk};
ghost use Rattle.mls_labels.specs.LabelText.{name_at};
ghost use Rattle.mls_wording.specs.Wording.{integrity_text, security_text};
ghost use Rattle.mls_differences.specs.ChangeForms.{profile_text, yes_or_no};
ghost use Rattle.mls_differences.specs.Changes.{parent_text};
ghost use Rattle.mls_differences.specs.Things.{both_text, part_text};
ghost use Rattle.mls_differences.specs.declared.thing.Thing.TheVariants.{Object, Subject};

use crate::thing::{Thing, push_both, push_part};
use mls_labels::{IntLabel, SecLabel};
use mls_lines::Names;
use mls_tables::{ObjectId, SubjectId};
use mls_tree::Profile;
use mls_wording::{push_integrity, push_security};
use std::alloc::AllocError;

/// What is written of a profile: its number.
fn profile_text(profile: Profile) -> &'static str
    ensures { result.now ≡ profile_text profile }
{
    match profile {
        Profile::One => "1",
        Profile::Two => "2",
    }
}

/// The word for whether something is so.
fn yes_or_no(so: bool) -> &'static str
    ensures { result.now ≡ yes_or_no so }
{
    if so { "yes" } else { "no" }
}

/// The name of an object, nothing where it has none.
pub(crate) fn name_at(names: &Names, o: ObjectId) -> &str
    ensures { result.now ≡ name_at names.now.objects o }
{
    match names.object_name(o) {
        Some(name) => name,
        None => "",
    }
}

/// The name of a parent, or that there is none.
pub(crate) fn parent_text(names: &Names, parent: Option<ObjectId>) -> &str
    ensures { result.now ≡ parent_text names.now parent }
{
    match parent {
        Some(p) => name_at(names, p),
        None => "(none)",
    }
}

/// Appends the line of two profiles.
pub(crate) fn push_profiles(
    text: &mut String,
    here: Profile,
    there: Profile,
) -> Result<(), AllocError>
    ensures { OnOk result (string_bytes text.new ≡ string_bytes text.old
        ++ codes "profile: " ++ both_text (profile_text here) (profile_text there)) }
{
    let first = profile_text(here);
    let second = profile_text(there);
    text.push_str("profile: ")?;
    push_both(text, first, second)
}

/// Appends the line of two security labels of a subject or an object.
pub(crate) fn push_securities(
    text: &mut String,
    names: (&Names, &Names),
    thing: Thing,
    part: &str,
    here: SecLabel,
    there: SecLabel,
) -> Result<(), AllocError>
    ensures { OnOk result (string_bytes text.new ≡ string_bytes text.old ++ part_text names.entry.0.now thing part.now
        ++ both_text (security_text names.entry.0.now here) (security_text names.entry.1.now there)) }
{
    let (first, second) = names;
    push_part(text, first, thing, part)?;
    push_security(text, first, here)?;
    text.push_str(" > ")?;
    push_security(text, second, there)?;
    text.push_str("\n")
}

/// Appends the line of two integrity labels of a subject or an object.
pub(crate) fn push_integrities(
    text: &mut String,
    names: (&Names, &Names),
    thing: Thing,
    here: IntLabel,
    there: IntLabel,
) -> Result<(), AllocError>
    ensures { OnOk result (string_bytes text.new ≡ string_bytes text.old
        ++ part_text names.entry.0.now thing (codes "integrity")
        ++ both_text (integrity_text names.entry.0.now here) (integrity_text names.entry.1.now there)) }
{
    let (first, second) = names;
    push_part(text, first, thing, "integrity")?;
    push_integrity(text, first, here)?;
    text.push_str(" > ")?;
    push_integrity(text, second, there)?;
    text.push_str("\n")
}

/// Appends the line of whether a subject is trusted.
pub(crate) fn push_trusted(
    text: &mut String,
    names: &Names,
    s: SubjectId,
    here: bool,
    there: bool,
) -> Result<(), AllocError>
    ensures { OnOk result (string_bytes text.new ≡ string_bytes text.old
        ++ part_text names.now (Subject s) (codes "trusted") ++ both_text (yes_or_no here) (yes_or_no there)) }
{
    push_part(text, names, Thing::Subject(s), "trusted")?;
    push_both(text, yes_or_no(here), yes_or_no(there))
}

/// Appends the line of the parents of an object.
pub(crate) fn push_parents(
    text: &mut String,
    names: (&Names, &Names),
    o: ObjectId,
    here: Option<ObjectId>,
    there: Option<ObjectId>,
) -> Result<(), AllocError>
    ensures { OnOk result (string_bytes text.new ≡ string_bytes text.old
        ++ part_text names.entry.0.now (Object o) (codes "parent")
        ++ both_text (parent_text names.entry.0.now here) (parent_text names.entry.1.now there)) }
{
    push_part(text, names.0, Thing::Object(o), "parent")?;
    push_both(
        text,
        parent_text(names.0, here),
        parent_text(names.1, there),
    )
}
