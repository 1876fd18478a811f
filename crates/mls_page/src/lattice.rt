//! The labels of a state, and which of them covers which.
ghost use Rattle.std.specs.Prelude.{length};

use crate::weight::Weighed;
use mls_labels::SecLabel;
use mls_review::{Cover, Holder, SHOWN, covering_pairs, distinct_labels, holders};
use mls_state::State;
use std::alloc::{AllocError, Global};

/// A label, and who and what has it.
#[derive(Drop)]
pub(crate) struct Node {
    pub label: SecLabel,
    pub holders: Vec<Holder>,
}

/// The labels of a state, and which covers which.
#[derive(Drop)]
pub(crate) struct Lattice {
    pub nodes: Vec<Node>,
    /// The covering pairs, by places among the nodes.
    pub covers: Vec<Cover>,
}

impl Node {
    /// Those that are named of those that have the label.
    pub(crate) fn named(&self) -> &[Holder] {
        self.holders.get(..SHOWN).unwrap_or(&self.holders)
    }

    /// How many have the label and aren't named.
    pub(crate) fn unnamed(&self) -> u64 {
        self.holders.len().saturating_sub(SHOWN) as u64
    }

    /// How many lines of text the label has: its own, one for each that is named, and one for the others.
    pub(crate) fn lines(&self) -> u64 {
        let rest = u64::from(self.unnamed() > 0);
        (self.named().len() as u64)
            .saturating_add(1)
            .saturating_add(rest)
    }
}

impl Weighed for Node {
    ghost weight_of = { λ node. length node.holders.items };

    /// How many have the label.
    fn weight(&self) -> u64 {
        self.holders.len() as u64
    }
}

/// The nodes of some labels of a state.
fn nodes_of(alloc: Global, state: &State, labels: &[SecLabel]) -> Result<Vec<Node>, AllocError> {
    let mut nodes = Vec::new(alloc);
    for label in labels {
        let holders = holders(alloc, state, label)?;
        nodes.push(Node {
            label: *label,
            holders,
        })?;
    }
    Ok(nodes)
}

impl Lattice {
    /// The lattice of a state's labels.
    ///
    /// # Errors
    /// `AllocError` where an allocation failed.
    pub(crate) fn of(alloc: Global, state: &State) -> Result<Lattice, AllocError> {
        let labels = distinct_labels(alloc, state)?;
        let covers = covering_pairs(alloc, &labels)?;
        let nodes = nodes_of(alloc, state, &labels);
        drop(labels);
        match nodes {
            Ok(nodes) => Ok(Lattice { nodes, covers }),
            Err(fault) => {
                drop(covers);
                Err(fault)
            }
        }
    }
}
