//! What conditions rest on that have several parts.
ghost use Rattle.std.specs.Prelude.{◌≡◌, ◌++◌, codes, string_bytes, OnOk};
ghost use Rattle.mls_labels.specs.Label.{dominates};
ghost use Rattle.mls_explain.specs.declared.term.Term.TheVariants as term;
ghost use Rattle.mls_explain_text.specs.Terms.{dominance_text};
ghost use Rattle.mls_explain_text.specs.Bases.{writing_text, children_text, reach_text, relabelling_text, place_text};

use crate::controls::push_writing;
use crate::level_changes::push_children;
use crate::term::push_dominance;
use mls_explain::{Place, Relabelling, Term};
use mls_labels::SecLabel;
use mls_lines::Names;
use mls_tables::ObjectId;
use std::alloc::AllocError;

/// Appends whether a label of the request dominates that of an object.
fn push_reach(
    text: &mut String,
    names: &Names,
    new: SecLabel,
    label: SecLabel,
    o: ObjectId,
) -> Result<(), AllocError>
    ensures { OnOk result (string_bytes text.new ≡ string_bytes text.old ++ reach_text names.now new label o) }
{
    let holds = new.dominates(&label);
    push_dominance(
        text,
        names,
        holds,
        &Term::Security(new),
        &Term::Object(label, o),
    )
}

/// Appends what authority to relabel rests on, part by part.
pub(crate) fn push_relabelling(
    text: &mut String,
    names: &Names,
    parts: &Relabelling,
) -> Result<(), AllocError>
    ensures { OnOk result
        (string_bytes text.new ≡ string_bytes text.old ++ relabelling_text names.now parts.now) }
{
    push_writing(text, names, parts.writes, parts.subject, parts.parent)?;
    text.push_str(", ")?;
    let holds = parts.current.dominates(&parts.label);
    let own = Term::Current(parts.current);
    push_dominance(
        text,
        names,
        holds,
        &own,
        &Term::Object(parts.label, parts.object),
    )?;
    text.push_str(", ")?;
    push_reach(text, names, parts.new, parts.label, parts.object)
}

/// Appends what the fit of a label between those of the parent and of the children rests on, part by part.
pub(crate) fn push_place(text: &mut String, names: &Names, place: &Place) -> Result<(), AllocError>
    ensures { OnOk result (string_bytes text.new ≡ string_bytes text.old ++ place_text names.now place.now) }
{
    push_reach(text, names, place.new, place.label, place.parent)?;
    text.push_str(", ")?;
    push_children(text, names, place.below, place.object, place.new)
}
