//! Labels that are carried over by name.
ghost use Rattle.std.specs.Prelude.{◌≡◌, IfOk, IfSome};
ghost use Rattle.mls_labels.specs.Scheme.{Scheme as SchemeView};
ghost use Rattle.mls_compare.specs.Carriers.{AreKept};
ghost use Rattle.mls_differences.specs.Alike.{carried_label};

use mls_differences::carried_label;
use mls_labels::{CatSet, Label, Scheme};
use std::alloc::{AllocError, Global};

/// A label, and its counterpart in another scheme, where it has one.
#[derive(Clone, Copy)]
pub(crate) struct Carried {
    pub label: Label,
    pub to: Option<Label>,
}

/// How many labels are kept at most, each with its counterpart.
const SLOTS: usize = 1024;

/// The place in which a label is kept, the same each time. Other labels may have the same one.
fn place(label: &Label) -> usize {
    let words = label.categories().words();
    let mixed = u64::from(label.level())
        ^ words[0]
        ^ words[1].rotate_left(16)
        ^ words[2].rotate_left(32)
        ^ words[3].rotate_left(48);
    (mixed.wrapping_mul(0x9e37_79b9_7f4a_7c15) >> 54) as usize
}

/// The counterpart that was kept of a label, where one was.
#[tactic(auto, using(mls_labels::proofs::Laws::labels_same))]
fn kept(slots: &[Option<Carried>], label: &Label) -> Option<Option<Label>>
    ensures { (scheme other : SchemeView) → AreKept scheme other slots.now
        → IfSome result (λ to. to ≡ carried_label scheme other label.now) }
{
    match slots.get(place(label)) {
        Some(Some(carried)) => {
            if carried.label == *label {
                Some(carried.to)
            } else {
                None
            }
        }
        Some(None) | None => None,
    }
}

/// Keeps a label with its counterpart, in place of the one that had its place.
fn keep(slots: &mut Vec<Option<Carried>>, carried: &Carried)
    ensures { (scheme other : SchemeView) → carried.now.to ≡ carried_label scheme other carried.now.label
        → AreKept scheme other slots.old.items → AreKept scheme other slots.new.items }
{
    let place = place(&carried.label);
    if place < slots.len() {
        slots[place] = Some(*carried);
    }
}

/// Room for labels with their counterparts, in which the lowest label is kept.
#[tactic(auto, using(crate::proofs::Labels::none_more))]
pub(crate) fn lowest_kept(
    alloc: Global,
    scheme: &Scheme,
    other: &Scheme,
) -> Result<Vec<Option<Carried>>, AllocError>
    ensures { IfOk result (λ slots. AreKept scheme.now other.now slots.items) }
{
    let label = Label::new(0, CatSet::empty());
    let to = carried_label(alloc, scheme, other, label)?;
    let carried = Carried { label, to };
    let mut slots = Vec::new(alloc);
    for _ in 0..SLOTS {
        slots.push(None)?;
    }
    keep(&mut slots, &carried);
    Ok(slots)
}

/// The counterpart of a label: as it was kept, or else looked up and kept.
pub(crate) fn carry(
    alloc: Global,
    slots: &mut Vec<Option<Carried>>,
    scheme: &Scheme,
    other: &Scheme,
    label: Label,
) -> Result<Option<Label>, AllocError>
    requires kept { AreKept scheme.now other.now slots.old.items }
    ensures kept { AreKept scheme.now other.now slots.new.items }
    ensures label { IfOk result (λ to. to ≡ carried_label scheme.now other.now label) }
{
    if let Some(to) = kept(slots, &label) {
        return Ok(to);
    }
    let to = carried_label(alloc, scheme, other, label)?;
    let carried = Carried { label, to };
    keep(slots, &carried);
    Ok(carried.to)
}
