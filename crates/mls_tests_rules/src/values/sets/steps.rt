//! Tables of steps on sets of accesses.
use crate::values::beside::Row;
use crate::values::seen::MODES;
use mls_tables::{MAX_OBJECTS, Mode};

/// What a test does to a set of accesses, or sees of it.
pub enum Step {
    Widen,
    /// A triple, and whether it is new.
    Insert(u16, u16, Mode, bool),
    /// A triple, and whether it was there.
    Remove(u16, u16, Mode, bool),
    /// The triples of an object go.
    Drop(u16),
    /// The triples of the objects 1 and 3 go.
    DropGroup,
    /// The triples of two runs of objects go, 1 to 3 and 5 to 6. Two numbers without a column are in the group too.
    DropRuns,
    /// The modes of a subject and an object.
    Has(u16, u16, &'static [Mode]),
    /// A triple, and whether it is there.
    Contains(u16, u16, Mode, bool),
    /// The objects that a subject accesses.
    Lists(u16, &'static [u16]),
    /// The subjects that access an object.
    Holders(u16, &'static [u16]),
}

/// Three triples, of which two are removed, and the last with its object. After each step both lists are told.
pub const WORKED: (u16, Row<'static, Step>) = (
    3,
    Row {
        times: 1,
        before: &[
            Step::Widen,
            Step::Widen,
            Step::Insert(2, 1, Mode::Read, true),
            Step::Holders(1, &[2]),
            Step::Lists(2, &[1]),
            Step::Insert(0, 1, Mode::Write, true),
            Step::Holders(1, &[0, 2]),
            Step::Lists(0, &[1]),
            Step::Insert(0, 1, Mode::Write, false),
            Step::Holders(1, &[0, 2]),
            Step::Lists(0, &[1]),
            Step::Insert(0, 1, Mode::Read, true),
            Step::Holders(1, &[0, 2]),
            Step::Lists(0, &[1]),
            Step::Remove(0, 1, Mode::Write, true),
            Step::Has(0, 1, &[Mode::Read]),
            Step::Holders(1, &[0, 2]),
            Step::Lists(0, &[1]),
            Step::Remove(0, 1, Mode::Read, true),
            Step::Has(0, 1, &[]),
            Step::Holders(1, &[2]),
            Step::Lists(0, &[]),
            Step::Remove(0, 1, Mode::Read, false),
            Step::Holders(1, &[2]),
            Step::Lists(0, &[]),
        ],
        after: &[
            Step::Drop(1),
            Step::Has(2, 1, &[]),
            Step::Holders(1, &[]),
            Step::Lists(2, &[]),
        ],
        copied: &[
            Step::Contains(2, 1, Mode::Read, true),
            Step::Holders(1, &[2]),
            Step::Lists(2, &[1]),
        ],
    },
);

/// One of three subjects has each access to four objects, of which two leave.
pub const GROUP: (u16, Row<'static, Step>) = (
    3,
    Row {
        times: 1,
        before: &[
            Step::Widen,
            Step::Insert(2, 0, Mode::Execute, true),
            Step::Insert(2, 0, Mode::Read, true),
            Step::Insert(2, 0, Mode::Append, true),
            Step::Insert(2, 0, Mode::Write, true),
            Step::Widen,
            Step::Insert(2, 1, Mode::Execute, true),
            Step::Insert(2, 1, Mode::Read, true),
            Step::Insert(2, 1, Mode::Append, true),
            Step::Insert(2, 1, Mode::Write, true),
            Step::Widen,
            Step::Insert(2, 2, Mode::Execute, true),
            Step::Insert(2, 2, Mode::Read, true),
            Step::Insert(2, 2, Mode::Append, true),
            Step::Insert(2, 2, Mode::Write, true),
            Step::Widen,
            Step::Insert(2, 3, Mode::Execute, true),
            Step::Insert(2, 3, Mode::Read, true),
            Step::Insert(2, 3, Mode::Append, true),
            Step::Insert(2, 3, Mode::Write, true),
            Step::Has(2, 1, &MODES),
            Step::Has(0, 1, &[]),
        ],
        after: &[
            Step::DropGroup,
            Step::Has(2, 0, &MODES),
            Step::Has(2, 1, &[]),
            Step::Has(2, 2, &MODES),
            Step::Has(2, 3, &[]),
            Step::Has(0, 0, &[]),
            Step::Has(1, 2, &[]),
            Step::Lists(2, &[0, 2]),
            Step::Lists(0, &[]),
            Step::Lists(1, &[]),
        ],
        copied: &[
            Step::Has(2, 1, &MODES),
            Step::Has(0, 3, &[]),
            Step::Lists(2, &[0, 1, 2, 3]),
        ],
    },
);

/// All of three subjects read and append two objects: the last subject comes first, and Read is inserted twice.
pub const FILLED: (u16, Row<'static, Step>) = (
    3,
    Row {
        times: 1,
        before: &[
            Step::Widen,
            Step::Insert(2, 0, Mode::Read, true),
            Step::Insert(2, 0, Mode::Append, true),
            Step::Insert(2, 0, Mode::Read, false),
            Step::Insert(0, 0, Mode::Read, true),
            Step::Insert(0, 0, Mode::Append, true),
            Step::Insert(0, 0, Mode::Read, false),
            Step::Insert(1, 0, Mode::Read, true),
            Step::Insert(1, 0, Mode::Append, true),
            Step::Insert(1, 0, Mode::Read, false),
            Step::Widen,
            Step::Insert(2, 1, Mode::Read, true),
            Step::Insert(2, 1, Mode::Append, true),
            Step::Insert(2, 1, Mode::Read, false),
            Step::Insert(0, 1, Mode::Read, true),
            Step::Insert(0, 1, Mode::Append, true),
            Step::Insert(0, 1, Mode::Read, false),
            Step::Insert(1, 1, Mode::Read, true),
            Step::Insert(1, 1, Mode::Append, true),
            Step::Insert(1, 1, Mode::Read, false),
            Step::Widen,
            Step::Insert(1, 2, Mode::Write, true),
            Step::Insert(0, 2, Mode::Write, true),
            Step::Insert(2, 2, Mode::Write, true),
            Step::Widen,
            Step::Insert(0, 3, Mode::Execute, true),
            Step::Insert(2, 3, Mode::Execute, true),
        ],
        after: &[Step::Remove(1, 0, Mode::Read, true), Step::Drop(2)],
        copied: &[Step::Lists(1, &[0, 1, 2])],
    },
);

/// The last triples of a set as large as can be.
pub const LARGEST: (u16, Row<'static, Step>) = (
    256,
    Row {
        times: MAX_OBJECTS,
        before: &[
            Step::Widen,
            Step::Insert(255, 4095, Mode::Write, true),
            Step::Insert(255, 4094, Mode::Write, true),
        ],
        after: &[
            Step::Drop(4094),
            Step::Contains(255, 4094, Mode::Write, false),
            Step::Contains(255, 4095, Mode::Write, true),
        ],
        copied: &[Step::Contains(255, 4094, Mode::Write, true)],
    },
);
