//! Conditions of requests, each with the same without trust.

ghost use Rattle.std.specs.Prelude.{◌≡◌};

use crate::condition::Condition;

/// A condition of a request, and the same condition if the subject that asks were not trusted.
#[derive(Clone, Copy, Debug)]
pub struct Judgement {
    pub condition: Condition,
    /// The condition without trust in the subject that asks.
    pub plain: Condition,
}

impl Judgement {
    /// Of a condition that doesn't look at trust.
    pub(crate) fn of(condition: Condition) -> Judgement
        ensures { result ≡ record { condition = condition; plain = condition } }
    {
        let plain = condition;
        Judgement { condition, plain }
    }
}
