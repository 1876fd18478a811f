//! The text of a start file that opens with a state. No clause says what is written: it is read back and compared.
use crate::new_names::NewNames;
use crate::schemes::{category_label, label_text, level_label};
use crate::text_lists::{Rows, Words};
use mls_labels::{MAX_CATEGORIES, MAX_LEVELS, Scheme};
use mls_lines::Names;
use mls_requests::mode_word;
use mls_state::{ObjectLabels, State, Subject, Table};
use mls_tables::{Mode, Modes, ObjectId, SubjectId};
use mls_tree::Profile;
use mls_wording::{push_integrity, push_security, push_subject};
use std::alloc::{AllocError, Global};

/// The modes, in their order.
const MODES: [Mode; 4] = [Mode::Execute, Mode::Read, Mode::Append, Mode::Write];

/// Appends the names of a scheme's levels.
fn push_levels(alloc: Global, text: &mut String, scheme: &Scheme) -> Result<(), AllocError> {
    let mut words = Words::begin(text)?;
    for n in 0..MAX_LEVELS {
        let label = level_label(n as u8);
        if scheme.has(label) {
            let name = label_text(alloc, scheme, label)?;
            words.push(text, name.as_str())?;
        }
    }
    words.end(text)
}

/// Appends the names of a scheme's categories: what is written of the lowest level and one has it behind a colon.
fn push_categories(alloc: Global, text: &mut String, scheme: &Scheme) -> Result<(), AllocError> {
    let mut words = Words::begin(text)?;
    for n in 0..MAX_CATEGORIES {
        let label = category_label(n as u8);
        if scheme.has(label) {
            let name = label_text(alloc, scheme, label)?;
            if let Some((_, category)) = name.as_str().split_once(':') {
                words.push(text, category)?;
            }
        }
    }
    words.end(text)
}

/// Appends a scheme.
fn push_scheme(
    alloc: Global,
    text: &mut String,
    key: &str,
    scheme: &Scheme,
) -> Result<(), AllocError> {
    text.push_str(",\n \"")?;
    text.push_str(key)?;
    text.push_str("\": {\"levels\": ")?;
    push_levels(alloc, text, scheme)?;
    text.push_str(", \"categories\": ")?;
    push_categories(alloc, text, scheme)?;
    text.push_str("}")?;
    Ok(())
}

/// The line of a profile.
fn profile_line(profile: Profile) -> &'static str {
    match profile {
        Profile::One => "{\n \"profile\": 1",
        Profile::Two => "{\n \"profile\": 2",
    }
}

/// Appends the profile and the schemes.
fn push_head(
    alloc: Global,
    text: &mut String,
    names: &Names,
    state: &State,
) -> Result<(), AllocError> {
    text.push_str(profile_line(state.profile()))?;
    push_scheme(alloc, text, "security", names.security())?;
    push_scheme(alloc, text, "integrity", names.integrity())
}

/// Appends a subject's members.
fn push_subject_members(
    text: &mut String,
    names: &Names,
    s: SubjectId,
    subject: &Subject,
) -> Result<(), AllocError> {
    text.push_str("\"name\": \"")?;
    push_subject(text, names, s)?;
    text.push_str("\", \"maximum\": \"")?;
    push_security(text, names, subject.maximum)?;
    text.push_str("\", \"current\": \"")?;
    push_security(text, names, subject.current)?;
    text.push_str("\", \"integrity\": \"")?;
    push_integrity(text, names, subject.integrity)?;
    text.push_str(if subject.trusted {
        "\", \"trusted\": true}"
    } else {
        "\", \"trusted\": false}"
    })?;
    Ok(())
}

/// Appends the subjects.
fn push_subjects(text: &mut String, names: &Names, state: &State) -> Result<(), AllocError> {
    let mut rows = Rows::begin(text, "subjects")?;
    for s in 0..state.subject_count() {
        let s = SubjectId::new(s);
        rows.begin_row(text)?;
        push_subject_members(text, names, s, state.subject(s))?;
    }
    rows.end(text)
}

/// The names that objects have in a text, and the names of the start.
#[derive(Clone, Copy)]
struct Naming<'a> {
    names: &'a Names,
    new: &'a NewNames,
}

/// Appends the name of a parent, `null` where there is none.
fn push_parent(
    text: &mut String,
    naming: Naming<'_>,
    parent: Option<ObjectId>,
) -> Result<(), AllocError> {
    let Some(p) = parent else {
        return text.push_str("null");
    };
    text.push_str("\"")?;
    naming.new.push(text, naming.names, p)?;
    text.push_str("\"")?;
    Ok(())
}

/// Appends an object's members.
fn push_object_members(
    text: &mut String,
    naming: Naming<'_>,
    o: ObjectId,
    labels: &ObjectLabels,
    parent: Option<ObjectId>,
) -> Result<(), AllocError> {
    text.push_str("\"name\": \"")?;
    naming.new.push(text, naming.names, o)?;
    text.push_str("\", \"parent\": ")?;
    push_parent(text, naming, parent)?;
    text.push_str(", \"security\": \"")?;
    push_security(text, naming.names, labels.security)?;
    text.push_str("\", \"integrity\": \"")?;
    push_integrity(text, naming.names, labels.integrity)?;
    text.push_str("\"}")?;
    Ok(())
}

/// Appends the objects of an order.
fn push_objects(
    text: &mut String,
    naming: Naming<'_>,
    state: &State,
    order: &[ObjectId],
) -> Result<(), AllocError> {
    let mut rows = Rows::begin(text, "objects")?;
    for o in order {
        if state.is_active(*o) {
            rows.begin_row(text)?;
            push_object_members(text, naming, *o, state.labels(*o), state.parent(*o))?;
        }
    }
    rows.end(text)
}

/// Appends the words of modes.
fn push_modes(text: &mut String, modes: Modes) -> Result<(), AllocError> {
    let mut words = Words::begin(text)?;
    for x in &MODES {
        if modes.has(*x) {
            words.push(text, mode_word(*x))?;
        }
    }
    words.end(text)
}

/// Appends a cell's members.
fn push_cell_members(
    text: &mut String,
    naming: Naming<'_>,
    s: SubjectId,
    o: ObjectId,
    modes: Modes,
) -> Result<(), AllocError> {
    text.push_str("\"subject\": \"")?;
    push_subject(text, naming.names, s)?;
    text.push_str("\", \"object\": \"")?;
    naming.new.push(text, naming.names, o)?;
    text.push_str("\", \"modes\": ")?;
    push_modes(text, modes)?;
    text.push_str("}")?;
    Ok(())
}

/// Appends the cells of a subject, by the places of objects.
fn push_row(
    text: &mut String,
    rows: &mut Rows,
    naming: Naming<'_>,
    state: &State,
    table: Table,
    order: &[ObjectId],
    s: SubjectId,
) -> Result<(), AllocError> {
    for o in order {
        let modes = table.modes(state, s, *o);
        if !modes.is_empty() {
            rows.begin_row(text)?;
            push_cell_members(text, naming, s, *o, modes)?;
        }
    }
    Ok(())
}

/// Appends a table, by subject.
fn push_table(
    text: &mut String,
    naming: Naming<'_>,
    state: &State,
    table: Table,
    order: &[ObjectId],
) -> Result<(), AllocError> {
    let key = match table {
        Table::Matrix => "matrix",
        Table::Accesses => "accesses",
    };
    let mut rows = Rows::begin(text, key)?;
    for s in 0..state.subject_count() {
        push_row(
            text,
            &mut rows,
            naming,
            state,
            table,
            order,
            SubjectId::new(s),
        )?;
    }
    rows.end(text)
}

/// The text of a start file with a state's objects in an order.
pub(crate) fn start_text(
    alloc: Global,
    names: &Names,
    state: &State,
    order: &[ObjectId],
) -> Result<String, AllocError> {
    let new = NewNames::new(alloc, names, order)?;
    let naming = Naming { names, new: &new };
    let mut text = String::new(alloc);
    push_head(alloc, &mut text, names, state)?;
    push_subjects(&mut text, names, state)?;
    push_objects(&mut text, naming, state, order)?;
    push_table(&mut text, naming, state, Table::Matrix, order)?;
    push_table(&mut text, naming, state, Table::Accesses, order)?;
    text.push_str("\n}\n")?;
    Ok(text)
}
