//! A table of steps in which objects whose numbers follow one another leave.
use super::steps::Step;
use crate::values::beside::Row;
use mls_tables::Mode;

/// Of seven objects the objects 1 to 3, 5 and 6 leave. One subject holds all of 0 to 4, one the middle of the first run
/// and the head of the second, one the end of the second and what lies about the first, and one the first without its
/// middle.
pub const RUNS: (u16, Row<'static, Step>) = (
    4,
    Row {
        times: 1,
        before: &[
            Step::Widen,
            Step::Widen,
            Step::Widen,
            Step::Widen,
            Step::Widen,
            Step::Widen,
            Step::Widen,
            Step::Insert(0, 0, Mode::Read, true),
            Step::Insert(0, 1, Mode::Read, true),
            Step::Insert(0, 2, Mode::Read, true),
            Step::Insert(0, 3, Mode::Read, true),
            Step::Insert(0, 4, Mode::Read, true),
            Step::Insert(1, 2, Mode::Read, true),
            Step::Insert(1, 5, Mode::Write, true),
            Step::Insert(2, 0, Mode::Read, true),
            Step::Insert(2, 4, Mode::Write, true),
            Step::Insert(2, 6, Mode::Read, true),
            Step::Insert(3, 3, Mode::Append, true),
            Step::Insert(3, 3, Mode::Execute, true),
            Step::Insert(3, 1, Mode::Read, true),
        ],
        after: &[
            Step::DropRuns,
            Step::Lists(0, &[0, 4]),
            Step::Lists(1, &[]),
            Step::Lists(2, &[0, 4]),
            Step::Lists(3, &[]),
            Step::Holders(0, &[0, 2]),
            Step::Holders(1, &[]),
            Step::Holders(2, &[]),
            Step::Holders(3, &[]),
            Step::Holders(4, &[0, 2]),
            Step::Holders(5, &[]),
            Step::Holders(6, &[]),
            Step::Has(0, 0, &[Mode::Read]),
            Step::Has(0, 2, &[]),
            Step::Has(2, 4, &[Mode::Write]),
            Step::Has(2, 6, &[]),
            Step::Has(3, 3, &[]),
        ],
        copied: &[
            Step::Lists(0, &[0, 1, 2, 3, 4]),
            Step::Lists(1, &[2, 5]),
            Step::Lists(2, &[0, 4, 6]),
            Step::Lists(3, &[1, 3]),
            Step::Holders(3, &[0, 3]),
        ],
    },
);
