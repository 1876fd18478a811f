//! The lines that tell of a word of a question that names nothing.
ghost use Rattle.std.specs.Prelude.{◌≡◌, map, string_bytes, IfOk};
ghost use Rattle.serde_json.specs.Data.{Data};
ghost use Rattle.serde_json.specs.View.{view};
ghost use Rattle.mls_start_text.specs.Looking.{IsReadAs};
ghost use Rattle.mls_start_text.specs.Views.{file_view};
ghost use Rattle.mls_explain_text.specs.FaultLines.{word_line, thing_names, thing_line, fault_line, by_file};

use crate::culprit::{push_culprit, push_meant_by};
use crate::nearest::push_nearest;
use crate::sort::Sort;
use mls_lines::LineFault;
use mls_start_text::{FileText, read_tree};
use serde_json::Value;
use std::alloc::{AllocError, Global};

/// The line of a word, by a file.
fn word_line_by(
    alloc: Global,
    file: FileText<'_>,
    sort: Sort,
    word: &str,
) -> Result<String, AllocError>
    ensures { IfOk result (λ text. string_bytes text ≡ word_line sort word.now (file_view file.entry)) }
{
    let mut text = String::new(alloc);
    text.push_str("mls: ")?;
    text.push_str(word)?;
    text.push_str(": bad name")?;
    push_meant_by(alloc, &mut text, &file, sort, word)?;
    Ok(text)
}

/// The names of the subjects and of the objects of a file.
fn thing_names<'a>(alloc: Global, file: &FileText<'a>) -> Result<Vec<&'a str>, AllocError>
    ensures { IfOk result
        (λ names. map (λ name. name.now) names.items ≡ thing_names (file_view file.now)) }
{
    let mut names = file.subject_names(alloc)?;
    let objects = file.object_names(alloc)?;
    names.extend_from_slice(&objects)?;
    Ok(names)
}

/// The line of a word that is to name a subject or else an object, by a file.
fn thing_line_by(alloc: Global, file: FileText<'_>, word: &str) -> Result<String, AllocError>
    ensures { IfOk result (λ text. string_bytes text ≡ thing_line word.now (file_view file.entry)) }
{
    let names = thing_names(alloc, &file)?;
    let mut text = String::new(alloc);
    text.push_str("mls: ")?;
    text.push_str(word)?;
    text.push_str(": bad name")?;
    push_nearest(alloc, &mut text, word, &names)?;
    Ok(text)
}

/// The line of a script line, by a file.
fn fault_line_by(
    alloc: Global,
    file: FileText<'_>,
    line: &str,
    fault: LineFault,
) -> Result<String, AllocError>
    ensures { IfOk result (λ text. string_bytes text ≡ fault_line line.now fault (file_view file.entry)) }
{
    let mut text = String::new(alloc);
    text.push_str("mls: line: ")?;
    text.push_str(fault.text())?;
    push_culprit(alloc, &mut text, &file, fault, line)?;
    Ok(text)
}

/// The line of a word, by a tree.
///
/// # Errors
/// `AllocError` where an allocation failed; also where the tree hasn't the members of a file, as each caller's has.
fn word_line_in(alloc: Global, tree: &Value, sort: Sort, word: &str) -> Result<String, AllocError>
    ensures { IfOk result (λ text. string_bytes text ≡ by_file (word_line sort word.now) (view tree.now)) }
{
    match FileText::read(alloc, tree) {
        Ok(file) => word_line_by(alloc, file, sort, word),
        Err(_) => Err(AllocError),
    }
}

/// The line of a word that is to name a subject or else an object, by a tree.
///
/// # Errors
/// As `word_line_in`.
fn thing_line_in(alloc: Global, tree: &Value, word: &str) -> Result<String, AllocError>
    ensures { IfOk result (λ text. string_bytes text ≡ by_file (thing_line word.now) (view tree.now)) }
{
    match FileText::read(alloc, tree) {
        Ok(file) => thing_line_by(alloc, file, word),
        Err(_) => Err(AllocError),
    }
}

/// The line of a script line, by a tree.
///
/// # Errors
/// As `word_line_in`.
fn fault_line_in(
    alloc: Global,
    tree: &Value,
    line: &str,
    fault: LineFault,
) -> Result<String, AllocError>
    ensures { IfOk result (λ text. string_bytes text ≡ by_file (fault_line line.now fault) (view tree.now)) }
{
    match FileText::read(alloc, tree) {
        Ok(file) => fault_line_by(alloc, file, line, fault),
        Err(_) => Err(AllocError),
    }
}

/// The line that tells that a word of a question names no subject or no object of a start file: the word, and in
/// brackets the nearest of the names that can stand there, where one is near.
///
/// # Errors
/// `AllocError` where an allocation failed; also where the bytes aren't those of a start file.
pub fn word_line(alloc: Global, start: &[u8], sort: Sort, word: &str) -> Result<String, AllocError>
    ensures { IfOk result
        (λ text. (d : Data) → IsReadAs start.now d → string_bytes text ≡ by_file (word_line sort word.now) d) }
{
    match read_tree(alloc, start) {
        Ok(tree) => {
            let told = word_line_in(alloc, &tree, sort, word);
            drop(tree);
            told
        }
        Err(_) => Err(AllocError),
    }
}

/// The line that tells that a word of a question names neither a subject nor an object of a start file: the word, and
/// in brackets the nearest of the names that can stand there, subjects' before objects', where one is near.
///
/// # Errors
/// `AllocError` where an allocation failed; also where the bytes aren't those of a start file.
pub fn thing_line(alloc: Global, start: &[u8], word: &str) -> Result<String, AllocError>
    ensures { IfOk result
        (λ text. (d : Data) → IsReadAs start.now d → string_bytes text ≡ by_file (thing_line word.now) d) }
{
    match read_tree(alloc, start) {
        Ok(tree) => {
            let told = thing_line_in(alloc, &tree, word);
            drop(tree);
            told
        }
        Err(_) => Err(AllocError),
    }
}

/// The line that tells for which fault a line of a question is refused: the fault, the first of the words for which it
/// has that fault, and in brackets the nearest of the names that can stand there, where one is near.
///
/// # Errors
/// `AllocError` where an allocation failed; also where the bytes aren't those of a start file.
pub fn fault_line(
    alloc: Global,
    start: &[u8],
    line: &str,
    fault: LineFault,
) -> Result<String, AllocError>
    ensures { IfOk result
        (λ text. (d : Data) → IsReadAs start.now d → string_bytes text ≡ by_file (fault_line line.now fault) d) }
{
    match read_tree(alloc, start) {
        Ok(tree) => {
            let told = fault_line_in(alloc, &tree, line, fault);
            drop(tree);
            told
        }
        Err(_) => Err(AllocError),
    }
}
