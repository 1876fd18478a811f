//! What a handle holds of a subject.
ghost use Rattle.std.specs.Prelude.{◌≡◌, ◌≢◌, ◌⊎◌, length, option_map, slice_get, IsTrue};
ghost use Rattle.mls_state.specs.State.{is_subject};
ghost use Rattle.mls_start_text.specs.Each.{having};
ghost use Rattle.mls_c.specs.Infos.{IsSubjectInfo, HasSubjectInfo, there_status, name_status};
ghost use Rattle.mls_c.specs.Opened.{state_of};
ghost use Rattle.mls_c.specs.Texts.{status_if_open, LiesIn, HasLength};
ghost use Rattle.mls_c.specs.declared.status.TheConstants.{OK, ERANGE};

use crate::handle::Mls;
use crate::label::LabelNumbers;
use crate::status::{ECLOSED, ENOTFOUND, OK};
use crate::text::copy_text;
use mls_state::State;
use mls_tables::SubjectId;

/// A subject: its labels, and 1 where it is trusted, else 0.
#[repr(C)]
#[derive(Clone, Copy)]
pub struct SubjectInfo {
    pub maximum: LabelNumbers,
    pub current: LabelNumbers,
    pub integrity: LabelNumbers,
    pub trusted: u8,
}

impl SubjectInfo {
    /// A known subject in numbers.
    fn of(state: &State, s: SubjectId) -> SubjectInfo
        requires { IsTrue (is_subject state.now s) }
        ensures { IsSubjectInfo state.now s result }
    {
        let subject = state.subject(s);
        SubjectInfo {
            maximum: LabelNumbers::of(subject.maximum.label()),
            current: LabelNumbers::of(subject.current.label()),
            integrity: LabelNumbers::of(subject.integrity.label()),
            trusted: if subject.trusted { 1 } else { 0 },
        }
    }
}

/// Copies out a subject.
pub(crate) fn copy_subject(state: &State, subject: u16, info: &mut SubjectInfo) -> i32
    ensures status { result ≡ there_status (is_subject state.now subject) }
    ensures copied { result ≡ OK → IsSubjectInfo state.now subject info.new }
    ensures silent { result ≢ OK → info.new ≡ info.old }
{
    let subject = SubjectId::new(subject);
    if !state.is_subject(subject) {
        return ENOTFOUND;
    }
    *info = SubjectInfo::of(state, subject);
    OK
}

/// Copies out a subject's labels, and whether it is trusted. It doesn't allocate.
#[unsafe(no_mangle)]
pub extern "C" fn mls_read_subject(m: &mut Mls, subject: u16, info: &mut SubjectInfo) -> i32
    ensures status { result
        ≡ status_if_open m.old.monitor.value (λ v. there_status (is_subject (state_of v) subject)) }
    ensures copied { result ≡ OK → HasSubjectInfo m.old.monitor.value subject info.new }
    ensures same { m.new.monitor.value ≡ m.old.monitor.value }
    ensures silent { result ≢ OK → info.new ≡ info.old }
{
    if m.held == 0 {
        return ECLOSED;
    }
    let opened = m.monitor.lend();
    copy_subject(opened.state(), subject, info)
}

/// Copies out a name of the start.
pub(crate) fn copy_name(name: Option<&str>, buffer: &mut [u8], len: &mut usize) -> i32
    ensures status { result ≡ name_status (option_map (λ n. n.now) name.entry) (length buffer.old) }
    ensures copied { result ≡ OK → LiesIn (option_map (λ n. n.now) name.entry) buffer.old buffer.new }
    ensures short { result ≢ OK → buffer.new ≡ buffer.old }
    ensures told { (result ≡ OK) ⊎ (result ≡ ERANGE) → HasLength (option_map (λ n. n.now) name.entry) len.new }
    ensures silent { result ≢ OK → result ≢ ERANGE → len.new ≡ len.old }
{
    match name {
        Some(name) => copy_text(name.as_bytes(), buffer, len),
        None => ENOTFOUND,
    }
}

/// Copies out the name that the start has for the number of a subject. The length of the name is told where the buffer
/// is too short, too. It doesn't allocate.
#[unsafe(no_mangle)]
pub extern "C" fn mls_subject_name_bytes(
    m: &mut Mls,
    subject: u16,
    buffer: &mut [u8],
    len: &mut usize,
) -> i32
    ensures status { result ≡ status_if_open m.old.monitor.value
        (λ v. name_status (slice_get v.names.subjects subject) (length buffer.old)) }
    ensures copied { result ≡ OK
        → LiesIn (having m.old.monitor.value (λ v. slice_get v.names.subjects subject)) buffer.old buffer.new }
    ensures short { result ≢ OK → buffer.new ≡ buffer.old }
    ensures told { (result ≡ OK) ⊎ (result ≡ ERANGE)
        → HasLength (having m.old.monitor.value (λ v. slice_get v.names.subjects subject)) len.new }
    ensures silent { result ≢ OK → result ≢ ERANGE → len.new ≡ len.old }
    ensures same { m.new.monitor.value ≡ m.old.monitor.value }
{
    if m.held == 0 {
        return ECLOSED;
    }
    let opened = m.monitor.lend();
    let name = opened.names().subject_name(SubjectId::new(subject));
    copy_name(name, buffer, len)
}
