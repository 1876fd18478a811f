//! Label texts in the schemes of an open monitor's start.
ghost use Rattle.std.specs.Prelude.{◌≡◌, ◌≢◌, ◌⊎◌, length, option_map, Some, IfOk, IsTrue, string_bytes};
ghost use Rattle.mls_labels.specs.Label.{has_label};
ghost use Rattle.mls_labels.specs.LabelText.{written};
ghost use Rattle.mls_labels.specs.Scheme.{bounds_of};
ghost use Rattle.mls_start_text.specs.Each.{having};
ghost use Rattle.mls_c.specs.Labels.{numbers_of_label, label_of};
ghost use Rattle.mls_c.specs.Opened.{Opened};
ghost use Rattle.mls_c.specs.Texts.{scheme_of, label_spelled, label_written, spelled_status, status_if_open};
ghost use Rattle.mls_c.specs.Texts.{StatusOfText, LabelTextStatus, LiesIn, HasLabel, HasLength, TextStatus};
ghost use Rattle.mls_c.specs.declared.status.TheConstants.{OK, ERANGE, EINVAL};

use crate::handle::Mls;
use crate::label::LabelNumbers;
use crate::opened::Opened;
use crate::status::{ECLOSED, EINVAL, ENOMEM, OK};
use crate::text::{copy_text, text_of};
use mls_labels::{Label, Scheme};
use mls_lines::Names;
use std::alloc::{AllocError, Global};

/// The scheme of a kind of labels.
fn scheme(names: &Names, kind: u32) -> Option<&Scheme>
    ensures { option_map (λ s. s.now) result ≡ scheme_of names.now kind }
{
    match kind {
        0 => Some(names.security()),
        1 => Some(names.integrity()),
        _ => None,
    }
}

/// The label that a text spells in the scheme of a kind.
fn spelled(names: &Names, kind: u32, text: &[u8]) -> Option<Label>
    ensures { result ≡ label_spelled (scheme_of names.now kind) text.now }
{
    let scheme = scheme(names, kind)?;
    let text = text_of(text)?;
    match scheme.read(text) {
        Ok(label) => Some(label),
        Err(_) => None,
    }
}

/// Reads a label text.
fn read_text(opened: &Opened, kind: u32, text: &[u8], label: &mut LabelNumbers) -> i32
    ensures status { result ≡ spelled_status (label_spelled (scheme_of opened.now.names kind) text.now) }
    ensures read { result ≡ OK → HasLabel (label_spelled (scheme_of opened.now.names kind) text.now) label.new }
    ensures silent { result ≢ OK → label.new ≡ label.old }
{
    match spelled(opened.names(), kind, text) {
        Some(found) => {
            *label = LabelNumbers::of(found);
            OK
        }
        None => EINVAL,
    }
}

/// Reads a label text in a scheme of the start: kind 0 for security labels, 1 for integrity labels. It doesn't
/// allocate.
#[unsafe(no_mangle)]
pub extern "C" fn mls_read_label_bytes(
    m: &mut Mls,
    kind: u32,
    text: &[u8],
    label: &mut LabelNumbers,
) -> i32
    ensures status { result
        ≡ status_if_open m.old.monitor.value (λ v. spelled_status (label_spelled (scheme_of v.names kind) text.now)) }
    ensures read { result ≡ OK
        → HasLabel (having m.old.monitor.value (λ v. label_spelled (scheme_of v.names kind) text.now)) label.new }
    ensures silent { result ≢ OK → label.new ≡ label.old }
    ensures same { m.new.monitor.value ≡ m.old.monitor.value }
{
    if m.held == 0 {
        return ECLOSED;
    }
    let opened = m.monitor.lend();
    read_text(opened, kind, text, label)
}

/// The text of a label that a scheme has.
fn written_text(alloc: Global, scheme: &Scheme, label: Label) -> Result<String, AllocError>
    requires { IsTrue (has_label (bounds_of scheme.now) label) }
    ensures { IfOk result (λ text. string_bytes text ≡ written scheme.now label) }
{
    let mut text = String::new(alloc);
    scheme.write(label, &mut text)?;
    Ok(text)
}

/// Copies out the text of a label that a scheme has.
fn copy_written(
    alloc: Global,
    scheme: &Scheme,
    label: Label,
    buffer: &mut [u8],
    len: &mut usize,
) -> i32
    requires { IsTrue (has_label (bounds_of scheme.now) label) }
    ensures status { TextStatus (written scheme.now label) (length buffer.old) result }
    ensures copied { result ≡ OK → LiesIn (Some (written scheme.now label)) buffer.old buffer.new }
    ensures same { result ≢ OK → buffer.new ≡ buffer.old }
    ensures told { (result ≡ OK) ⊎ (result ≡ ERANGE) → HasLength (Some (written scheme.now label)) len.new }
    ensures silent { result ≢ OK → result ≢ ERANGE → len.new ≡ len.old }
{
    match written_text(alloc, scheme, label) {
        Ok(text) => copy_text(text.as_bytes(), buffer, len),
        Err(_) => ENOMEM,
    }
}

/// Copies out the text of a label of numbers, where they are a label that the scheme has.
fn copy_label(
    alloc: Global,
    scheme: &Scheme,
    numbers: &LabelNumbers,
    buffer: &mut [u8],
    len: &mut usize,
) -> i32
    ensures status { StatusOfText EINVAL (label_written (Some scheme.now) numbers.now) (length buffer.old) result }
    ensures copied { result ≡ OK → LiesIn (label_written (Some scheme.now) numbers.now) buffer.old buffer.new }
    ensures short { result ≢ OK → buffer.new ≡ buffer.old }
    ensures told { (result ≡ OK) ⊎ (result ≡ ERANGE) → HasLength (label_written (Some scheme.now) numbers.now) len.new }
    ensures silent { result ≢ OK → result ≢ ERANGE → len.new ≡ len.old }
{
    let Some(label) = numbers.label() else {
        return EINVAL;
    };
    if !scheme.has(label) {
        return EINVAL;
    }
    copy_written(alloc, scheme, label, buffer, len)
}

/// Copies out the text of a label of numbers in the scheme of a kind.
fn copy_label_of(
    opened: &Opened,
    alloc: Global,
    kind: u32,
    numbers: &LabelNumbers,
    buffer: &mut [u8],
    len: &mut usize,
) -> i32
    ensures status { LabelTextStatus (Some opened.now) kind numbers.now (length buffer.old) result }
    ensures copied { result ≡ OK
        → LiesIn (label_written (scheme_of opened.now.names kind) numbers.now) buffer.old buffer.new }
    ensures short { result ≢ OK → buffer.new ≡ buffer.old }
    ensures told { (result ≡ OK) ⊎ (result ≡ ERANGE)
        → HasLength (label_written (scheme_of opened.now.names kind) numbers.now) len.new }
    ensures silent { result ≢ OK → result ≢ ERANGE → len.new ≡ len.old }
{
    match scheme(opened.names(), kind) {
        Some(scheme) => copy_label(alloc, scheme, numbers, buffer, len),
        None => EINVAL,
    }
}

/// Copies out the text of a label in a scheme of the start: kind 0 for security labels, 1 for integrity labels. The
/// length of the text is told where the buffer is too short, too.
#[unsafe(no_mangle)]
pub extern "C" fn mls_write_label_bytes(
    m: &mut Mls,
    alloc: Global,
    kind: u32,
    numbers: &LabelNumbers,
    buffer: &mut [u8],
    len: &mut usize,
) -> i32
    ensures status { LabelTextStatus m.old.monitor.value kind numbers.now (length buffer.old) result }
    ensures copied { result ≡ OK
        → LiesIn (having m.old.monitor.value
        (λ v. label_written (scheme_of v.names kind) numbers.now)) buffer.old buffer.new }
    ensures short { result ≢ OK → buffer.new ≡ buffer.old }
    ensures told { (result ≡ OK) ⊎ (result ≡ ERANGE)
        → HasLength (having m.old.monitor.value (λ v. label_written (scheme_of v.names kind) numbers.now)) len.new }
    ensures silent { result ≢ OK → result ≢ ERANGE → len.new ≡ len.old }
    ensures same { m.new.monitor.value ≡ m.old.monitor.value }
{
    if m.held == 0 {
        return ECLOSED;
    }
    let opened = m.monitor.lend();
    copy_label_of(opened, alloc, kind, numbers, buffer, len)
}
