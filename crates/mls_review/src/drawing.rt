//! The lines of a drawing.
ghost use Rattle.std.specs.Prelude.{◌≡◌, ◌++◌, All, length, string_bytes, OnOk};
ghost use Rattle.std.specs.List.{flat_map};
ghost use Rattle.mls_review.specs.Covers.{IsWithin};
ghost use Rattle.mls_review.specs.Drawing.{holder_line, holder_name, holder_word, holder_text, holders_text};
ghost use Rattle.mls_review.specs.Drawing.{edge_text, more_text, node_text};

use crate::cover::Cover;
use crate::holder::Holder;
use crate::holding::holders;
use mls_labels::SecLabel;
use mls_lines::Names;
use mls_state::State;
use mls_wording::{push_number, push_object, push_security, push_subject};
use std::alloc::{AllocError, Global};

/// How many of those that have a label are named in a drawing, at most.
pub const SHOWN: usize = 12;

/// Appends the name of one that has a label.
fn push_name(text: &mut String, names: &Names, holder: &Holder) -> Result<(), AllocError>
    ensures { OnOk result (string_bytes text.new ≡ string_bytes text.old ++ holder_name names.now holder.now) }
{
    match *holder {
        Holder::Maximum(s) | Holder::Current(s) | Holder::Both(s) => push_subject(text, names, s),
        Holder::Object(o) => push_object(text, names, o),
    }
}

/// What is said of a subject that has a label.
fn holder_word(holder: &Holder) -> &'static str
    ensures { result.now ≡ holder_word holder.now }
{
    match *holder {
        Holder::Maximum(_) => " maximum",
        Holder::Current(_) => " current",
        Holder::Both(_) => " maximum, current",
        Holder::Object(_) => "",
    }
}

/// Appends one that has a label: its name, and of a subject as what it has it.
///
/// # Errors
/// `AllocError` where an allocation failed. The text may then have a part of it.
pub fn push_holder(text: &mut String, names: &Names, holder: &Holder) -> Result<(), AllocError>
    ensures { OnOk result (string_bytes text.new ≡ string_bytes text.old ++ holder_text names.now holder.now) }
{
    push_name(text, names, holder)?;
    text.push_str(holder_word(holder))
}

/// Appends one that has a label, on a line of its own within a node.
fn push_holder_line(text: &mut String, names: &Names, holder: &Holder) -> Result<(), AllocError>
    ensures { OnOk result (string_bytes text.new ≡ string_bytes text.old ++ holder_line names.now holder.now) }
{
    text.push_str("\\n")?;
    push_holder(text, names, holder)
}

/// Appends how many more there are, where there are any.
fn push_more(text: &mut String, count: usize) -> Result<(), AllocError>
    ensures { OnOk result (string_bytes text.new ≡ string_bytes text.old ++ more_text count) }
{
    if count == 0 {
        return Ok(());
    }
    text.push_str("\\nand ")?;
    push_number(text, count as u64)?;
    text.push_str(" more")
}

/// Appends all of these, each on a line of its own within a node.
fn push_each(text: &mut String, names: &Names, all: &[Holder]) -> Result<(), AllocError>
    ensures { OnOk result
        (string_bytes text.new ≡ string_bytes text.old ++ flat_map (holder_line names.now) all.now) }
{
    for holder in all {
        push_holder_line(text, names, holder)?;
    }
    Ok(())
}

/// Appends the first of these, and how many more there are.
fn push_holders(text: &mut String, names: &Names, all: &[Holder]) -> Result<(), AllocError>
    ensures { OnOk result (string_bytes text.new ≡ string_bytes text.old ++ holders_text names.now all.now) }
{
    if all.len() <= SHOWN {
        push_each(text, names, all)
    } else {
        push_each(text, names, &all[..SHOWN])?;
        push_more(text, all.len() - SHOWN)
    }
}

/// Appends the line of a label.
fn push_node(
    alloc: Global,
    text: &mut String,
    names: &Names,
    state: &State,
    label: &SecLabel,
) -> Result<(), AllocError>
    ensures { OnOk result
        (string_bytes text.new ≡ string_bytes text.old ++ node_text names.now state.now label.now) }
{
    let all = holders(alloc, state, label)?;
    text.push_str("\"")?;
    push_security(text, names, *label)?;
    text.push_str("\" [label=\"")?;
    push_security(text, names, *label)?;
    push_holders(text, names, &all)?;
    text.push_str("\"];\n")
}

/// Appends the line of a covering pair.
fn push_edge(
    text: &mut String,
    names: &Names,
    labels: &[SecLabel],
    cover: &Cover,
) -> Result<(), AllocError>
    requires { IsWithin (length labels.now) cover.now }
    ensures { OnOk result
        (string_bytes text.new ≡ string_bytes text.old ++ edge_text names.now labels.now cover.now) }
{
    text.push_str("\"")?;
    push_security(text, names, labels[cover.lower])?;
    text.push_str("\" -> \"")?;
    push_security(text, names, labels[cover.upper])?;
    text.push_str("\";\n")
}

/// Appends the lines of labels.
pub(crate) fn push_nodes(
    alloc: Global,
    text: &mut String,
    names: &Names,
    state: &State,
    labels: &[SecLabel],
) -> Result<(), AllocError>
    ensures { OnOk result
        (string_bytes text.new ≡ string_bytes text.old ++ flat_map (node_text names.now state.now) labels.now) }
{
    for label in labels {
        push_node(alloc, text, names, state, label)?;
    }
    Ok(())
}

/// Appends the lines of covering pairs.
pub(crate) fn push_edges(
    text: &mut String,
    names: &Names,
    labels: &[SecLabel],
    covers: &[Cover],
) -> Result<(), AllocError>
    requires { All (IsWithin (length labels.now)) covers.now }
    ensures { OnOk result
        (string_bytes text.new ≡ string_bytes text.old ++ flat_map (edge_text names.now labels.now) covers.now) }
{
    for cover in covers {
        push_edge(text, names, labels, cover)?;
    }
    Ok(())
}
