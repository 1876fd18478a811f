//! Labels by calls: sets of categories, dominance and bounds.
ghost use Rattle.std.specs.Prelude.{◌≡◌, ◌↔◌, IsTrue};

use crate::values::seen::sees;
use mls_labels::{Bounds, CatSet, IntLabel, Label, SecLabel};

/// `==` on labels is equality of values, to a caller's proof too.
fn is_same(a: Label, b: Label) -> bool
    ensures { IsTrue result ↔ (a ≡ b) }
{
    a == b
}

#[test]
fn a_set_has_what_was_added(rt: HostRuntime) {
    let none = CatSet::empty();
    let some = none.with(0).with(255).with(0);
    sees(
        &rt,
        some.contains(0) && some.contains(255),
        "what was added",
    );
    sees(
        &rt,
        !some.contains(1) && !none.contains(0),
        "what wasn't added",
    );
    sees(
        &rt,
        none.is_subset(&some) && !some.is_subset(&none),
        "subsets",
    );
    sees(
        &rt,
        some == none.with(255).with(0) && some != none,
        "equal sets",
    );
    let mut rest = some;
    sees(
        &rt,
        rest.pop_first() == Some(0) && rest.pop_first() == Some(255),
        "the first",
    );
    sees(&rt, rest.pop_first().is_none() && rest == none, "none left");
}

#[test]
fn neither_of_two_labels_need_dominate(rt: HostRuntime) {
    let a = Label::new(2, CatSet::empty().with(0));
    let b = Label::new(2, CatSet::empty().with(1));
    let both = Label::new(3, a.categories().with(1));
    sees(
        &rt,
        !a.dominates(&b) && !b.dominates(&a) && !is_same(a, b),
        "neither",
    );
    sees(
        &rt,
        both.dominates(&a) && both.dominates(&b) && !a.dominates(&both),
        "one above both",
    );
    sees(
        &rt,
        a.dominates(&a) && is_same(a, Label::new(a.level(), a.categories())),
        "itself",
    );
    sees(
        &rt,
        SecLabel::of(both).dominates(&SecLabel::of(a)),
        "security",
    );
    sees(
        &rt,
        !IntLabel::of(a).dominates(&IntLabel::of(b)),
        "integrity",
    );
    sees(
        &rt,
        SecLabel::of(a).label() == a && SecLabel::of(a) != SecLabel::of(b),
        "security",
    );
    sees(
        &rt,
        IntLabel::of(b).label() == b && IntLabel::of(b) == IntLabel::of(b),
        "integrity",
    );
}

#[test]
fn bounds_are_counts(rt: HostRuntime) {
    let bounds = Bounds::new(4, 2);
    sees(
        &rt,
        bounds.has(Label::new(3, CatSet::empty().with(0).with(1))),
        "a label within",
    );
    sees(
        &rt,
        !bounds.has(Label::new(4, CatSet::empty())),
        "a level above",
    );
    sees(
        &rt,
        !bounds.has(Label::new(0, CatSet::empty().with(2))),
        "a category beyond",
    );
    sees(
        &rt,
        bounds == Bounds::new(4, 2) && bounds != Bounds::new(4, 3),
        "equal bounds",
    );
}
