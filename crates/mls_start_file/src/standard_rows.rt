//! The rows of the standard start.
ghost use Rattle.std.specs.Prelude.{◌≡◌, ◌<◌, ◌++◌, IfOk, OnOk};
ghost use Rattle.std.specs.FinSet as set;
ghost use Rattle.mls_labels.specs.declared.limits.TheConstants.{MAX_LEVELS};
ghost use Rattle.mls_state.specs.First.{with_triples};
ghost use Rattle.mls_start_file.specs.Standard.{standard_subjects, standard_objects, standard_rows};

use mls_labels::{Bounds, CatSet, IntLabel, Label, SecLabel};
use mls_start::StartBuilder;
use mls_tables::{Mode, ObjectId, SubjectId};
use std::alloc::{AllocError, Allocator};

const ANN: SubjectId = SubjectId(0);

const BOB: SubjectId = SubjectId(1);

const SEC: SubjectId = SubjectId(2);

const AUD: SubjectId = SubjectId(3);

const ROOT: ObjectId = ObjectId(0);

const PLANS: ObjectId = ObjectId(1);

const MEMO: ObjectId = ObjectId(2);

const TOOL: ObjectId = ObjectId(3);

/// What the matrix permits.
const CELLS: [(SubjectId, ObjectId, Mode); 12] = [
    (ANN, PLANS, Mode::Read),
    (ANN, PLANS, Mode::Write),
    (ANN, MEMO, Mode::Read),
    (ANN, TOOL, Mode::Execute),
    (BOB, MEMO, Mode::Read),
    (BOB, PLANS, Mode::Append),
    (BOB, TOOL, Mode::Execute),
    (SEC, ROOT, Mode::Write),
    (SEC, PLANS, Mode::Write),
    (SEC, MEMO, Mode::Append),
    (SEC, MEMO, Mode::Write),
    (AUD, PLANS, Mode::Read),
];

/// A security label.
fn security(level: u8, categories: CatSet) -> SecLabel
    requires { level < MAX_LEVELS }
    ensures { result ≡ record { level = level; categories = categories } }
{
    SecLabel::of(Label::new(level, categories))
}

/// An integrity label, which has no category.
fn integrity(level: u8) -> IntLabel
    requires { level < MAX_LEVELS }
    ensures { result ≡ record { level = level; categories = set.empty } }
{
    IntLabel::of(Label::new(level, CatSet::empty()))
}

/// Gives the subjects ann, bob, sec and aud.
fn add_subjects<A: Allocator>(builder: &mut StartBuilder<A>) -> Result<(), AllocError>
    ensures { OnOk result (builder.new ≡ record builder.old { subjects = builder.old.subjects ++ standard_subjects }) }
{
    let none = CatSet::empty();
    let (unclassified, secret) = (security(0, none), security(2, none.with(0)));
    let (low, high) = (integrity(0), integrity(1));
    builder.subject(secret, secret, high, false)?;
    builder.subject(security(1, none), unclassified, low, false)?;
    builder.subject(security(3, none.with(0).with(1)), unclassified, high, true)?;
    builder.subject(secret, unclassified, high, true)
}

/// Gives the objects plans, memo and tool.
fn add_objects<A: Allocator>(builder: &mut StartBuilder<A>) -> Result<(), AllocError>
    ensures { OnOk result (builder.new ≡ record builder.old { objects = builder.old.objects ++ standard_objects }) }
{
    let none = CatSet::empty();
    let (low, high) = (integrity(0), integrity(1));
    builder.object(ROOT, security(2, none.with(0)), high)?;
    builder.object(ROOT, security(1, none), low)?;
    builder.object(ROOT, security(0, none), low)
}

/// Permits some triples.
fn allow_all<A: Allocator>(
    builder: &mut StartBuilder<A>,
    cells: &[(SubjectId, ObjectId, Mode)],
) -> Result<(), AllocError>
    ensures { OnOk result (builder.new ≡ record builder.old { cells = with_triples builder.old.cells cells.now }) }
{
    for cell in cells {
        builder.allow(cell.0, cell.1, cell.2)?;
    }
    Ok(())
}

/// A builder with the rows of the standard start.
///
/// # Errors
/// `AllocError` where an allocation failed.
#[tactic(auto, using(crate::proofs::StandardRows::all_cells))]
pub(crate) fn standard_builder<A: Allocator + Copy>(alloc: A) -> Result<StartBuilder<A>, AllocError>
    ensures { IfOk result (λ builder. builder ≡ standard_rows) }
{
    let mut builder = StartBuilder::new(
        alloc,
        Bounds::new(4, 2),
        Bounds::new(2, 0),
        security(0, CatSet::empty()),
        integrity(1),
    );
    add_subjects(&mut builder)?;
    add_objects(&mut builder)?;
    allow_all(&mut builder, &CELLS)?;
    Ok(builder)
}
