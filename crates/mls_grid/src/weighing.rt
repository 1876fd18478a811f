//! What the objects and the subjects of a state weigh.
ghost use Rattle.mls_could.specs.Outsets.{IsOutset};

use crate::cell::cell_of;
use mls_could::Outset;
use mls_rules::State;
use mls_tables::{MAX_OBJECTS, ObjectId, SubjectId};
use std::alloc::{AllocError, Global};

/// What objects and subjects weigh, by number.
#[derive(Drop)]
pub(crate) struct Weights {
    pub objects: Vec<u64>,
    pub subjects: Vec<u64>,
}

/// Adds to the weight at a number.
fn add_at(weights: &mut [u64], number: u16, more: u64) {
    if let Some(weight) = weights.get_mut(number as usize) {
        *weight = weight.saturating_add(more);
    }
}

impl Weights {
    /// The accesses of a subject are weighed.
    fn add_subject(&mut self, state: &State, outset: &Outset, s: SubjectId)
        requires { IsOutset state.now outset.now }
    {
        for n in 0..MAX_OBJECTS {
            let o = ObjectId::new(n);
            if state.is_active(o) {
                let weight = cell_of(state, outset, s, o).weight();
                add_at(&mut self.objects, n, weight);
                add_at(&mut self.subjects, s.number(), weight);
            }
        }
    }
}

/// What objects and subjects of a state weigh.
///
/// # Errors
/// `AllocError` where an allocation failed.
pub(crate) fn weigh(alloc: Global, state: &State, outset: &Outset) -> Result<Weights, AllocError>
    requires { IsOutset state.now outset.now }
{
    let count = state.subject_count();
    let subjects = Vec::from_elem(alloc, 0u64, count as usize)?;
    let objects = Vec::from_elem(alloc, 0u64, MAX_OBJECTS as usize)?;
    let mut weights = Weights { objects, subjects };
    for n in 0..count {
        weights.add_subject(state, outset, SubjectId::new(n));
    }
    Ok(weights)
}
