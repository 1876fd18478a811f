//! Conditions of requests in numbers.
ghost use Rattle.std.specs.Prelude.{◌≡◌};
ghost use Rattle.mls_c.specs.Conditions.{about, bit_of, comparing, in_mode, naming, numbers_of_basis};
ghost use Rattle.mls_c.specs.Conditions.{numbers_of_condition, numbers_of_place, numbers_of_relabelling};

use crate::answer::number_of_reason;
use crate::request::number_of_mode;
use crate::term_numbers::TermNumbers;
use mls_explain::{Condition, Ground, Place, Relabelling, Term};
use mls_labels::SecLabel;
use mls_tables::Mode;

/// A condition: the number of its reason, 1 where it holds, the kind of what it rests on, and what that names. What a
/// kind doesn't name is 0.
#[repr(C)]
#[derive(Clone, Copy)]
pub struct ConditionNumbers {
    pub reason: u16,
    pub holds: u8,
    /// 1 where what is looked at beside labels is so.
    pub also: u8,
    pub basis: u8,
    pub mode: u8,
    pub subject: u16,
    pub object: u16,
    pub parent: u16,
    pub first: TermNumbers,
    pub second: TermNumbers,
    pub third: TermNumbers,
}

/// 1 where something is so, else 0.
fn bit_of(is: bool) -> u8
    ensures { result ≡ bit_of is }
{
    if is { 1 } else { 0 }
}

impl ConditionNumbers {
    /// The numbers of a kind that names a subject and an object, 0 where it doesn't, and nothing else.
    fn about(basis: u8, subject: u16, object: u16) -> ConditionNumbers
        ensures { result ≡ about basis subject object }
    {
        ConditionNumbers {
            reason: 0,
            holds: 0,
            also: 0,
            basis,
            mode: 0,
            subject,
            object,
            parent: 0,
            first: TermNumbers::none(),
            second: TermNumbers::none(),
            third: TermNumbers::none(),
        }
    }

    /// The same with a mode.
    fn in_mode(mut self, x: Mode) -> ConditionNumbers
        ensures { result ≡ in_mode self x }
    {
        self.mode = number_of_mode(x);
        self
    }

    /// The same with one label, which the request names.
    fn naming(mut self, label: SecLabel) -> ConditionNumbers
        ensures { result ≡ naming self label }
    {
        self.first = TermNumbers::of(Term::Security(label));
        self
    }

    /// The same with two labels that are compared.
    fn comparing(mut self, first: Term, second: Term) -> ConditionNumbers
        ensures { result ≡ comparing self first second }
    {
        self.first = TermNumbers::of(first);
        self.second = TermNumbers::of(second);
        self
    }

    /// What authority to relabel rests on, in numbers.
    fn of_relabelling(parts: Relabelling) -> ConditionNumbers
        ensures { result ≡ numbers_of_relabelling parts }
    {
        let current = Term::Current(parts.current);
        let label = Term::Object(parts.label, parts.object);
        let mut numbers = ConditionNumbers::about(
            13,
            parts.subject.number(),
            parts.object.number(),
        ).comparing(current, label);
        numbers.also = bit_of(parts.writes);
        numbers.parent = parts.parent.number();
        numbers.third = TermNumbers::of(Term::Security(parts.new));
        numbers
    }

    /// What the fit of a label to a place rests on, in numbers.
    fn of_place(place: Place) -> ConditionNumbers
        ensures { result ≡ numbers_of_place place }
    {
        let new = Term::Security(place.new);
        let label = Term::Object(place.label, place.parent);
        let mut numbers = ConditionNumbers::about(15, 0, place.object.number()).comparing(
            new, label,
        );
        numbers.also = bit_of(place.below);
        numbers.parent = place.parent.number();
        numbers
    }

    /// What a condition rests on, in numbers.
    fn of_basis(basis: Ground) -> ConditionNumbers
        ensures { result ≡ numbers_of_basis basis }
    {
        match basis {
            Ground::Permission(s, x, o) => ConditionNumbers::about(
                1,
                s.number(),
                o.number(),
            ).in_mode(x),
            Ground::Unobserving(x) => ConditionNumbers::about(2, 0, 0).in_mode(x),
            Ground::Inert => ConditionNumbers::about(3, 0, 0),
            Ground::Trust(s) => ConditionNumbers::about(4, s.number(), 0),
            Ground::Dominance(a, b) => ConditionNumbers::about(5, 0, 0).comparing(a, b),
            Ground::Equality(a, b) => ConditionNumbers::about(6, 0, 0).comparing(a, b),
            Ground::Writing(s, o) => ConditionNumbers::about(7, s.number(), o.number()),
            Ground::Altering(s, o) => ConditionNumbers::about(8, s.number(), o.number()),
            Ground::Parentless(o) => ConditionNumbers::about(9, 0, o.number()),
            Ground::Number(n) => ConditionNumbers::about(10, 0, n),
            Ground::Root(o) => ConditionNumbers::about(11, 0, o.number()),
            Ground::Holdings(s, l) => ConditionNumbers::about(12, s.number(), 0).naming(l),
            Ground::Relabelling(parts) => ConditionNumbers::of_relabelling(parts),
            Ground::Children(o, l) => ConditionNumbers::about(14, 0, o.number()).naming(l),
            Ground::Place(place) => ConditionNumbers::of_place(place),
            Ground::Observers(o, l) => ConditionNumbers::about(16, 0, o.number()).naming(l),
            Ground::Holders(o, l) => ConditionNumbers::about(17, 0, o.number()).naming(l),
        }
    }

    /// A condition in numbers.
    pub(crate) fn of(condition: &Condition) -> ConditionNumbers
        ensures { result ≡ numbers_of_condition condition.now }
    {
        let mut numbers = ConditionNumbers::of_basis(condition.basis);
        numbers.reason = number_of_reason(condition.reason);
        numbers.holds = bit_of(condition.holds);
        numbers
    }
}
