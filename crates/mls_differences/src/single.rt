//! What one of two starts alone has.
ghost use Rattle.std.specs.Prelude.{◌≡◌};
ghost use Rattle.mls_differences.specs.SingleForms.{area_of, kind_word, single_word, table_word};

use crate::side::{Area, Side};
use mls_state::Table;
use mls_tables::{Mode, ObjectId, SubjectId};

/// A kind of names.
#[derive(Clone, Copy)]
pub(crate) enum Kind {
    Level(Area),
    Category(Area),
    Subject,
    Object,
}

/// What one of two starts alone has.
#[derive(Clone, Copy)]
pub(crate) enum Single {
    /// A permission, or an access, of a subject and an object that both have. The numbers are the first start's.
    Triple(Table, Side, SubjectId, ObjectId, Mode),
    /// The name of a number of that start.
    Name(Side, Kind, u16),
}

/// The word for a table.
pub(crate) fn table_word(table: Table) -> &'static str
    ensures { result.now ≡ table_word table }
{
    match table {
        Table::Matrix => "permit",
        Table::Accesses => "access",
    }
}

impl Kind {
    /// The word for the kind.
    pub(crate) fn word(self) -> &'static str
        ensures { result.now ≡ kind_word self }
    {
        match self {
            Kind::Level(_) => "level",
            Kind::Category(_) => "category",
            Kind::Subject => "subject",
            Kind::Object => "object",
        }
    }

    /// The scheme that a name is one of, where it is one of a scheme.
    pub(crate) fn area(self) -> Option<Area>
        ensures { result ≡ area_of self }
    {
        match self {
            Kind::Level(area) | Kind::Category(area) => Some(area),
            Kind::Subject | Kind::Object => None,
        }
    }
}

impl Single {
    /// The word for what differs.
    pub(crate) fn word(&self) -> &'static str
        ensures { result.now ≡ single_word self.now }
    {
        match self {
            Single::Triple(table, _, _, _, _) => table_word(*table),
            Single::Name(_, _, _) => "name",
        }
    }
}
