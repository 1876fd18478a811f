//! What a person at the prompt is shown: the names that there are, and what a line may be.
use mls_lines::Names;
use mls_tables::{ObjectId, SubjectId};
use std::alloc::{AllocError, Global};

/// What a line may be, below the names.
const LINES: &str = "\
A line is a subject and what it asks:
  get-read, get-append, get-write or get-execute OBJECT
  release or check MODE OBJECT, with MODE read, append, write or execute
  level LABEL
Others are in docs/FORMATS.md. help or ? shows this again, and quit or exit ends.
";

/// Appends a space and a name.
fn push_name(text: &mut String, name: &str) -> Result<(), AllocError> {
    text.push_str(" ")?;
    text.push_str(name)
}

/// Appends a line of the subjects' names.
fn push_subjects(text: &mut String, names: &Names) -> Result<(), AllocError> {
    text.push_str("subjects")?;
    for number in 0..u16::MAX {
        let Some(name) = names.subject_name(SubjectId(number)) else {
            break;
        };
        push_name(text, name)?;
    }
    text.push_str("\n")
}

/// Appends a line of the objects' names.
fn push_objects(text: &mut String, names: &Names) -> Result<(), AllocError> {
    text.push_str("objects")?;
    for number in 0..u16::MAX {
        let Some(name) = names.object_name(ObjectId(number)) else {
            break;
        };
        push_name(text, name)?;
    }
    text.push_str("\n")
}

/// What a person at the prompt is shown over a start of these names.
///
/// # Errors
/// `AllocError` where an allocation failed.
pub fn help_text(alloc: Global, names: &Names) -> Result<String, AllocError> {
    let mut text = String::new(alloc);
    push_subjects(&mut text, names)?;
    push_objects(&mut text, names)?;
    text.push_str(LINES)?;
    Ok(text)
}
