//! A line of a state's text.
ghost use Rattle.std.specs.Prelude.{◌≡◌, Some, IsTrue};
ghost use Rattle.mls_wording.specs.ReadBack.{HasNames};
ghost use Rattle.mls_snapshots.specs.LineReading.{subject_in, parent_in, parts_in, triple_in, said_behind, said_in};
ghost use Rattle.mls_snapshots.specs.Rows.{Row, IsWithin, are_seen, words_of, row_line, said_of};

use crate::state_words::{cut, integrity, keyed, number, object, profile, security};
use mls_labels::{a_text_is_read_as_it_is_spelled, a_written_label_is_spelled};
use mls_lines::Names;
use mls_requests::read_mode;
use mls_state::{ObjectLabels, Subject, Table};
use mls_tables::{Mode, ObjectId, SubjectId};
use mls_tree::Profile;

/// What a line says of an object.
#[derive(Clone, Copy)]
pub(crate) struct ObjectParts {
    pub labels: ObjectLabels,
    pub parent: Option<ObjectId>,
}

/// What a line of a state's text says.
#[derive(Clone, Copy)]
pub(crate) enum StateLine {
    Profile(Profile),
    Next(u16),
    Subject(Subject),
    Object(ObjectId, ObjectParts),
    Triple(Table, (SubjectId, ObjectId, Mode)),
}

/// What a line says of a subject behind its name.
fn subject_parts(names: &Names, text: &str) -> Option<Subject>
    ensures { result ≡ subject_in names.now text.now }
{
    let (maximum, text) = keyed(text, "maximum")?;
    let (current, text) = keyed(text, "current")?;
    let (own, text) = keyed(text, "integrity")?;
    Some(Subject {
        maximum: security(names, maximum)?,
        current: security(names, current)?,
        integrity: integrity(names, own)?,
        trusted: text == "trusted",
    })
}

/// The parent that a text says; `None` within where it says none.
fn parent(names: &Names, text: &str) -> Option<Option<ObjectId>>
    ensures { result ≡ parent_in names.now text.now }
{
    match keyed(text, "parent") {
        Some((parent, _)) => Some(Some(object(names, parent)?)),
        None => Some(None),
    }
}

/// What a line says of an object behind its name.
fn object_parts(names: &Names, text: &str) -> Option<ObjectParts>
    ensures { result ≡ parts_in names.now text.now }
{
    let (label, text) = keyed(text, "security")?;
    let (own, text) = keyed(text, "integrity")?;
    let labels = ObjectLabels {
        security: security(names, label)?,
        integrity: integrity(names, own)?,
    };
    let parent = parent(names, text)?;
    Some(ObjectParts { labels, parent })
}

/// The triple of a line.
fn triple(names: &Names, text: &str) -> Option<(SubjectId, ObjectId, Mode)>
    ensures { result ≡ triple_in names.now text.now }
{
    let (subject, text) = cut(text, ' ');
    let (mode, o) = cut(text, ' ');
    let subject = names.subject(subject)?;
    let o = object(names, o)?;
    let mode = read_mode(mode.as_bytes())?;
    Some((subject, o, mode))
}

/// What a line says by its first word and what stands behind it.
fn said_behind(names: &Names, word: &str, text: &str) -> Option<StateLine>
    ensures { result ≡ said_behind names.now word.now text.now }
{
    match word {
        "profile" => Some(StateLine::Profile(profile(text)?)),
        "next" => Some(StateLine::Next(number(text.as_bytes())?)),
        "subject" => Some(StateLine::Subject(subject_parts(names, cut(text, ' ').1)?)),
        "object" => {
            let (name, text) = cut(text, ' ');
            let o = object(names, name)?;
            Some(StateLine::Object(o, object_parts(names, text)?))
        }
        "permit" => Some(StateLine::Triple(Table::Matrix, triple(names, text)?)),
        "access" => Some(StateLine::Triple(Table::Accesses, triple(names, text)?)),
        _ => None,
    }
}

/// What a line says.
fn said(names: &Names, line: &str) -> Option<StateLine>
    ensures { result ≡ said_in names.now line.now }
{
    let (word, text) = cut(line, ' ');
    said_behind(names, word, text)
}

/// Each byte of a row's words is seen when printed. The function does nothing.
pub(crate) fn words_are_seen(names: &Names)
    ensures { (row : Row) → HasNames names.now → IsWithin names.now row → IsTrue (are_seen (words_of names.now row)) }
{
    // both schemes are sound, as their bounds tell
    let _ = names.security().bounds();
    let _ = names.integrity().bounds();
    a_written_label_is_spelled();
}

/// What a line of a state's text says, with the names of a start. More than the lines of rows is read: what is read is
/// written again, and compared.
pub(crate) fn read_line(names: &Names, line: &str) -> Option<StateLine>
    ensures { (row : Row) → HasNames names.now → IsWithin names.now row → line.now ≡ row_line names.now row
        → result ≡ Some (said_of row) }
{
    // both schemes are sound, as their bounds tell
    let _ = names.security().bounds();
    let _ = names.integrity().bounds();
    a_text_is_read_as_it_is_spelled();
    a_written_label_is_spelled();
    said(names, line)
}
