//! What a drawing is made of: slots in ranks, and links between them.

/// The width of a label's box, of a line that passes a rank, and of what is free beside either.
pub(crate) const BOX: u64 = 208;

const PASS: u64 = 16;

pub(crate) const GAP: u64 = 16;

/// A place in a rank: that of a label, or where a line passes.
#[derive(Clone, Copy)]
pub(crate) struct Slot {
    pub rank: usize,
    /// The label's place, where it is one's.
    pub node: Option<usize>,
    /// Its middle.
    pub x: u64,
}

/// A line from a slot to one of the next rank.
#[derive(Clone, Copy)]
pub(crate) struct Link {
    pub low: usize,
    pub high: usize,
}

/// Where a rank is drawn.
#[derive(Clone, Copy)]
pub(crate) struct Row {
    pub top: u64,
    pub height: u64,
}

/// Where a slot is drawn.
#[derive(Clone, Copy)]
pub(crate) struct Place {
    /// Its middle.
    pub x: u64,
    pub top: u64,
    pub bottom: u64,
}

/// Where a slot is drawn that isn't there.
pub(crate) const NOWHERE: Place = Place {
    x: 0,
    top: 0,
    bottom: 0,
};

impl Slot {
    /// How wide it is.
    pub(crate) fn width(&self) -> u64 {
        if self.node.is_some() { BOX } else { PASS }
    }
}
