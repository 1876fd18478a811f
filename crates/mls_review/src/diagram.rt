//! The drawing of a state's labels.
ghost use Rattle.std.specs.Prelude.{◌≡◌, true, string_bytes, IfOk};
ghost use Rattle.mls_review.specs.Drawing.{drawing};

use crate::covering::covering_pairs;
use crate::distinct::distinct_labels;
use crate::drawing::{push_edges, push_nodes};
use mls_lines::Names;
use mls_state::State;
use mls_wording::Answer;
use std::alloc::{AllocError, Global};

/// The drawing of a state's labels.
fn drawing(alloc: Global, names: &Names, state: &State) -> Result<String, AllocError>
    ensures { IfOk result (λ text. string_bytes text ≡ drawing names.now state.now) }
{
    let labels = distinct_labels(alloc, state)?;
    let covers = covering_pairs(alloc, &labels)?;
    let mut text = String::from_str(alloc, "digraph lattice {\nrankdir=BT;\nnode [shape=box];\n")?;
    push_nodes(alloc, &mut text, names, state, &labels)?;
    push_edges(&mut text, names, &labels, &covers)?;
    text.push_str("}\n")?;
    Ok(text)
}

/// The security labels of a state and their covering pairs, drawn as DOT: a node for each label, with the names of
/// those that have it, and an edge from each label to each that covers it. The answer is always positive.
///
/// # Errors
/// `AllocError` where an allocation failed.
pub fn lattice(alloc: Global, names: &Names, state: &State) -> Result<Answer, AllocError>
    ensures text { IfOk result (λ drawn. string_bytes drawn.text ≡ drawing names.now state.now) }
    ensures positive { IfOk result (λ drawn. drawn.is_positive ≡ true) }
{
    let text = drawing(alloc, names, state)?;
    Ok(Answer {
        text,
        is_positive: true,
    })
}
