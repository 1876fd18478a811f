//! What untrusted subjects could get from one of two starts alone.
ghost use Rattle.std.specs.Prelude.{◌≡◌, Bool, IfOk};
ghost use Rattle.mls_tables.specs.Triples.{Triple};
ghost use Rattle.mls_could.specs.Outsets.{acts_of, Decides, IsOutset};
ghost use Rattle.mls_differences.specs.Coulds.{could_bytes, named_coulds, TellsCoulds};
ghost use Rattle.mls_differences.specs.Differences.{IsListing};

use crate::compared::with_rows;
use crate::could_row::CouldRow;
use crate::coulds::push_coulds;
use crate::shared::{shared_objects, shared_subjects};
use crate::starts::listing;
use mls_could::{Outset, untrusted};
use mls_lines::Names;
use mls_rows::{Form, Listing, Output};
use mls_rules::State;
use mls_start_file::Loaded;
use std::alloc::{AllocError, Global};

/// The accesses that actors could get from one of two states alone, of the subjects and the objects that names share.
fn coulds(
    alloc: Global,
    names: (&Names, &Names),
    first: (&State, &Outset),
    second: (&State, &Outset),
) -> Result<Vec<CouldRow>, AllocError>
    requires first { IsOutset first.0.now first.1.now }
    requires second { IsOutset second.0.now second.1.now }
    ensures { IfOk result (λ rows. (here there : Triple → Bool)
        → Decides here first.entry.0.now (acts_of first.entry.1.now)
        → Decides there second.entry.0.now (acts_of second.entry.1.now)
        → rows.items ≡ named_coulds here there names.entry.0.now names.entry.1.now) }
{
    let subjects = shared_subjects(alloc, names.0, names.1)?;
    let objects = shared_objects(alloc, names.0, names.1)?;
    let mut rows = Vec::new(alloc);
    let pushed = push_coulds(&mut rows, first, second, &subjects, &objects);
    drop(objects);
    drop(subjects);
    pushed?;
    Ok(rows)
}

/// The rows of the accesses that actors could get from one of two states alone, in a form.
fn list_coulds(
    alloc: Global,
    form: Form,
    words: (&str, &str),
    names: (&Names, &Names),
    first: (&State, &Outset),
    second: (&State, &Outset),
) -> Result<Listing, AllocError>
    requires first { IsOutset first.0.now first.1.now }
    requires second { IsOutset second.0.now second.1.now }
    ensures { IfOk result (λ found. (here there : Triple → Bool)
        → Decides here first.entry.0.now (acts_of first.entry.1.now)
        → Decides there second.entry.0.now (acts_of second.entry.1.now)
        → IsListing (could_bytes form words.entry.0.now words.entry.1.now names.entry.0.now
        (named_coulds here there names.entry.0.now names.entry.1.now)) found) }
{
    let rows = coulds(alloc, names, first, second)?;
    let written = with_rows(alloc, Output::new(alloc, form), words, names, &rows);
    drop(rows);
    Ok(listing(written?.into_bytes()))
}

/// The same of two states, where all act that aren't trusted.
fn compare_states(
    alloc: Global,
    form: Form,
    words: (&str, &str),
    names: (&Names, &Names),
    states: (&State, &State),
) -> Result<Listing, AllocError>
    ensures { IfOk result (λ found. TellsCoulds form words.entry.0.now words.entry.1.now names.entry.0.now
        names.entry.1.now states.entry.0.now states.entry.1.now found) }
{
    states.0.agrees();
    states.1.agrees();
    let one = untrusted(alloc, states.0)?;
    let other = untrusted(alloc, states.1)?;
    let found = list_coulds(
        alloc,
        form,
        words,
        names,
        (states.0, &one),
        (states.1, &other),
    );
    drop(other);
    drop(one);
    found
}

/// What untrusted subjects could get from one of two starts alone, of subjects and objects that both have, in a form.
/// Files of these words say them. The answer is positive where there is nothing.
///
/// # Errors
/// `AllocError` where an allocation failed.
pub fn compare_coulds(
    alloc: Global,
    form: Form,
    words: (&str, &str),
    first: &Loaded,
    second: &Loaded,
) -> Result<Listing, AllocError>
    ensures { IfOk result (λ found. TellsCoulds form words.entry.0.now words.entry.1.now first.now.names
        second.now.names first.now.start second.now.start found) }
{
    let opened = first.start().opening(alloc)?;
    let other = second.start().opening(alloc)?;
    let names = (first.names(), second.names());
    let found = compare_states(alloc, form, words, names, (&opened, &other));
    drop(other);
    drop(opened);
    found
}
