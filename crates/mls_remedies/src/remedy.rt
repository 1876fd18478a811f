//! Remedies.
ghost use Rattle.std.specs.Prelude.{◌≡◌, []};

use crate::ending::Ending;
use crate::step::Step;
use std::alloc::Global;

/// What would have to come before a request that is denied.
#[derive(Drop)]
pub struct Remedy {
    /// The requests to be made, in this order.
    pub steps: Vec<Step>,
    /// What they lead to.
    pub ending: Ending,
}

impl Remedy {
    /// A remedy of no steps.
    pub(crate) fn none(alloc: Global, ending: Ending) -> Remedy
        ensures steps { result.steps.items ≡ [] }
        ensures ending { result.ending ≡ ending }
    {
        Remedy {
            steps: Vec::new(alloc),
            ending,
        }
    }
}
