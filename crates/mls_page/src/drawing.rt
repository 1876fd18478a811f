//! Labels, drawn by rank.
use crate::lattice::Node;
use crate::ranks::{rank_at, ranks};
use crate::slot::{GAP, Link, NOWHERE, Place, Row, Slot};
use mls_review::Cover;
use std::alloc::{AllocError, Global};

/// The height of a line of text, what is free around the lines of a box, and what is free between two ranks.
pub(crate) const LINE: u64 = 16;

const PAD: u64 = 12;

const RISE: u64 = 36;

/// Labels, drawn by rank.
#[derive(Drop)]
pub(crate) struct Drawing {
    pub slots: Vec<Slot>,
    pub links: Vec<Link>,
    /// The ranks, the lowest first.
    rows: Vec<Row>,
    pub width: u64,
    pub height: u64,
}

/// The height of a label's box.
fn box_height(node: &Node) -> u64 {
    node.lines().saturating_mul(LINE).saturating_add(PAD)
}

impl Drawing {
    /// A drawing of nothing.
    fn empty(alloc: Global) -> Drawing {
        Drawing {
            slots: Vec::new(alloc),
            links: Vec::new(alloc),
            rows: Vec::new(alloc),
            width: 0,
            height: 0,
        }
    }

    /// Adds the slots of labels, and a row for each rank.
    fn add_nodes(&mut self, nodes: &[Node], ranks: &[usize]) -> Result<(), AllocError> {
        for (index, node) in nodes.iter().enumerate() {
            let rank = rank_at(ranks, index);
            let node_slot = Slot {
                rank,
                node: Some(index),
                x: 0,
            };
            self.slots.push(node_slot)?;
            if let Some(row) = self.rows.get_mut(rank) {
                row.height = row.height.max(box_height(node));
            }
        }
        Ok(())
    }

    /// Adds a line that goes up from a slot, past all ranks to another slot.
    fn add_line(&mut self, cover: &Cover, ranks: &[usize]) -> Result<(), AllocError> {
        let mut low = cover.lower;
        for rank in rank_at(ranks, cover.lower).saturating_add(1)..rank_at(ranks, cover.upper) {
            let high = self.slots.len();
            let pass = Slot {
                rank,
                node: None,
                x: 0,
            };
            self.slots.push(pass)?;
            self.links.push(Link { low, high })?;
            low = high;
        }
        let high = cover.upper;
        self.links.push(Link { low, high })?;
        Ok(())
    }

    /// How wide the slots of a rank are, with what is free beside them.
    fn rank_width(&self, rank: usize) -> u64 {
        let mut width = GAP;
        for slot in &self.slots {
            if slot.rank == rank {
                width = width.saturating_add(slot.width()).saturating_add(GAP);
            }
        }
        width
    }

    /// The mean of the middles of those that a slot is linked to in the rank below.
    fn mean_below(&self, slot: usize) -> u64 {
        let mut sum = 0u64;
        let mut count = 0u64;
        for link in &self.links {
            if link.high == slot {
                sum = sum.saturating_add(self.at(link.low).x);
                count = count.saturating_add(1);
            }
        }
        sum.checked_div(count).unwrap_or(0)
    }

    /// The slots of a rank, from left to right: by the mean of those below.
    fn order(&self, alloc: Global, rank: usize) -> Result<Vec<(u64, usize)>, AllocError> {
        let mut order = Vec::new(alloc);
        for (index, slot) in self.slots.iter().enumerate() {
            if slot.rank == rank {
                order.push((self.mean_below(index), index))?;
            }
        }
        order.sort_unstable();
        Ok(order)
    }

    /// Places the slots of a rank beside each other, in an order.
    fn place(&mut self, order: &[(u64, usize)], from: u64) {
        let mut left = from;
        for (_, index) in order {
            if let Some(slot) = self.slots.get_mut(*index) {
                let width = slot.width();
                slot.x = left.saturating_add(width / 2);
                left = left.saturating_add(width).saturating_add(GAP);
            }
        }
    }

    /// Places all slots, rank by rank from the lowest up, each rank in the middle.
    fn place_all(&mut self, alloc: Global) -> Result<(), AllocError> {
        let count = self.rows.len();
        for rank in 0..count {
            self.width = self.width.max(self.rank_width(rank));
        }
        for rank in 0..count {
            let order = self.order(alloc, rank)?;
            let free = self.width.saturating_sub(self.rank_width(rank));
            self.place(&order, (free / 2).saturating_add(GAP));
            drop(order);
        }
        Ok(())
    }

    /// Stacks the rows, the highest rank at the top.
    fn stack(&mut self) {
        let mut top = GAP;
        for row in self.rows.iter_mut().rev() {
            row.top = top;
            top = top.saturating_add(row.height).saturating_add(RISE);
        }
        self.height = top.saturating_sub(RISE).saturating_add(GAP);
    }

    /// Lays labels out that have these ranks.
    fn lay_out(
        &mut self,
        alloc: Global,
        nodes: &[Node],
        covers: &[Cover],
        ranks: &[usize],
    ) -> Result<(), AllocError> {
        let highest = ranks.iter().copied().max().unwrap_or(0);
        for _ in 0..highest.saturating_add(1) {
            self.rows.push(Row { top: 0, height: 0 })?;
        }
        self.add_nodes(nodes, ranks)?;
        for cover in covers {
            self.add_line(cover, ranks)?;
        }
        self.stack();
        self.place_all(alloc)
    }

    /// The drawing of labels.
    pub(crate) fn of(
        alloc: Global,
        nodes: &[Node],
        covers: &[Cover],
    ) -> Result<Drawing, AllocError> {
        let ranks = ranks(alloc, nodes.len(), covers)?;
        let mut drawing = Drawing::empty(alloc);
        let done = drawing.lay_out(alloc, nodes, covers, &ranks);
        drop(ranks);
        done?;
        Ok(drawing)
    }

    /// Where a slot is drawn.
    pub(crate) fn at(&self, slot: usize) -> Place {
        let Some(slot) = self.slots.get(slot) else {
            return NOWHERE;
        };
        match self.rows.get(slot.rank) {
            Some(row) => Place {
                x: slot.x,
                top: row.top,
                bottom: row.top.saturating_add(row.height),
            },
            None => NOWHERE,
        }
    }
}
