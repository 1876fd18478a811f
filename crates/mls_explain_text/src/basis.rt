//! What a condition rests on.
ghost use Rattle.std.specs.Prelude.{◌≡◌, ◌++◌, codes, string_bytes, OnOk};
ghost use Rattle.mls_explain_text.specs.Bases.{basis_text};

use crate::controls::{
    push_altering, push_next, push_parentless, push_permission, push_root, push_trust,
    push_unobserving, push_writing,
};
use crate::level_changes::{push_children, push_holders, push_holdings, push_observers};
use crate::parts::{push_place, push_relabelling};
use crate::term::{push_dominance, push_equality};
use mls_explain::Ground;
use mls_lines::Names;
use std::alloc::AllocError;

/// Appends what a condition rests on, as it is where the condition holds or as it is where it fails.
pub(crate) fn push_basis(
    text: &mut String,
    names: &Names,
    holds: bool,
    ground: &Ground,
) -> Result<(), AllocError>
    ensures { OnOk result (string_bytes text.new ≡ string_bytes text.old ++ basis_text names.now holds ground.now) }
{
    match ground {
        Ground::Permission(s, x, o) => push_permission(text, names, holds, *s, *x, *o),
        Ground::Unobserving(x) => push_unobserving(text, *x),
        Ground::Inert => text.push_str("execute neither observes nor alters"),
        Ground::Trust(s) => push_trust(text, names, holds, *s),
        Ground::Dominance(upper, lower) => push_dominance(text, names, holds, upper, lower),
        Ground::Equality(one, other) => push_equality(text, names, holds, one, other),
        Ground::Writing(s, o) => push_writing(text, names, holds, *s, *o),
        Ground::Altering(s, o) => push_altering(text, names, holds, *s, *o),
        Ground::Parentless(o) => push_parentless(text, names, *o),
        Ground::Number(number) => push_next(text, holds, *number),
        Ground::Root(o) => push_root(text, names, holds, *o),
        Ground::Holdings(s, l) => push_holdings(text, names, holds, *s, *l),
        Ground::Relabelling(parts) => push_relabelling(text, names, parts),
        Ground::Children(o, l) => push_children(text, names, holds, *o, *l),
        Ground::Place(place) => push_place(text, names, place),
        Ground::Observers(o, l) => push_observers(text, names, holds, *o, *l),
        Ground::Holders(o, l) => push_holders(text, names, holds, *o, *l),
    }
}
