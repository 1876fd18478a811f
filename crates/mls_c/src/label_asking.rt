//! Asking by labels alone: dominance, and accesses to what has labels and isn't an object.
ghost use Rattle.std.specs.Prelude.{◌≡◌, ◌≢◌, Some};
ghost use Rattle.mls_c.specs.Answers.{number_of_reply};
ghost use Rattle.mls_c.specs.LabelAsking.{dominance_number, access_of, label_reply, label_status, access_status};
ghost use Rattle.mls_c.specs.LabelAsking.{HasLabelReply, IsLabelReply};
ghost use Rattle.mls_c.specs.Labels.{label_of};
ghost use Rattle.mls_c.specs.Requests.{mode_at};
ghost use Rattle.mls_c.specs.declared.status.TheConstants.{OK};

use crate::answer::number_of_reply;
use crate::handle::Mls;
use crate::label::LabelNumbers;
use crate::label_access::LabelAccess;
use crate::request::mode_at;
use crate::status::{ECLOSED, EINVAL, OK};
use mls_labels::{CatSet, IntLabel, MAX_LEVELS, SecLabel};
use mls_state::State;
use mls_tables::{Mode, SubjectId};

/// Whether the first label dominates the second: 1 or 0. It is 0 too where one of them has a level that no label has.
/// It takes no handle and doesn't allocate.
#[unsafe(no_mangle)]
pub extern "C" fn mls_dominates(a: &LabelNumbers, b: &LabelNumbers) -> i32
    ensures { result ≡ dominance_number (label_of a.now) (label_of b.now) }
{
    if (a.level as usize) >= MAX_LEVELS || b.level > a.level {
        return 0;
    }
    let mine = CatSet::from_words(a.categories);
    let theirs = CatSet::from_words(b.categories);
    if theirs.is_subset(&mine) { 1 } else { 0 }
}

/// Decides an access. What is known of its mode and its labels when this is compiled isn't asked when it runs.
#[inline(always)]
fn decide_access(state: &State, access: &LabelAccess, reply: &mut u16) -> i32
    ensures status { result ≡ OK }
    ensures answered { reply.new ≡ number_of_reply (label_reply state.now access.now) }
{
    let said = access.reply(state);
    *reply = number_of_reply(&said);
    OK
}

/// Decides by the numbers of labels of whatever categories. It isn't put where it is called, so that labels of the
/// first 64 pay nothing for the others.
#[inline(never)]
fn decide_long(
    state: &State,
    subject: u16,
    mode: u8,
    security: &LabelNumbers,
    integrity: &LabelNumbers,
    reply: &mut u16,
) -> i32
    ensures status { result ≡ access_status (access_of subject mode security.now integrity.now) }
    ensures answered { result ≡ OK
        → IsLabelReply state.now (access_of subject mode security.now integrity.now) reply.new }
    ensures silent { result ≢ OK → reply.new ≡ reply.old }
{
    let Some(access) = LabelAccess::of(subject, mode, security, integrity) else {
        return EINVAL;
    };
    decide_access(state, &access, reply)
}

/// Decides by the numbers of labels in their mode, by one word of categories each where they have no other.
#[inline(always)]
fn decide_in(
    state: &State,
    subject: u16,
    mode: u8,
    known: Mode,
    security: &LabelNumbers,
    integrity: &LabelNumbers,
    reply: &mut u16,
) -> i32
    requires { mode_at mode ≡ Some known }
    ensures status { result ≡ access_status (access_of subject mode security.now integrity.now) }
    ensures answered { result ≡ OK
        → IsLabelReply state.now (access_of subject mode security.now integrity.now) reply.new }
    ensures silent { result ≢ OK → reply.new ≡ reply.old }
{
    let Some(secrecy) = security.short_label() else {
        return decide_long(state, subject, mode, security, integrity, reply);
    };
    let Some(trust) = integrity.short_label() else {
        return decide_long(state, subject, mode, security, integrity, reply);
    };
    let access = LabelAccess {
        subject: SubjectId::new(subject),
        mode: known,
        security: SecLabel::of(secrecy),
        integrity: IntLabel::of(trust),
    };
    decide_access(state, &access, reply)
}

/// Decides by the numbers of labels in a mode that is known when it runs. It isn't put where it is called, so that
/// reads pay nothing for other modes.
#[inline(never)]
fn decide_mode(
    state: &State,
    subject: u16,
    mode: u8,
    security: &LabelNumbers,
    integrity: &LabelNumbers,
    reply: &mut u16,
) -> i32
    ensures status { result ≡ access_status (access_of subject mode security.now integrity.now) }
    ensures answered { result ≡ OK
        → IsLabelReply state.now (access_of subject mode security.now integrity.now) reply.new }
    ensures silent { result ≢ OK → reply.new ≡ reply.old }
{
    let Some(known) = mode_at(mode) else {
        return EINVAL;
    };
    decide_in(state, subject, mode, known, security, integrity, reply)
}

/// Decides by the numbers of labels.
pub(crate) fn decide_labels(
    state: &State,
    subject: u16,
    mode: u8,
    security: &LabelNumbers,
    integrity: &LabelNumbers,
    reply: &mut u16,
) -> i32
    ensures status { result ≡ access_status (access_of subject mode security.now integrity.now) }
    ensures answered { result ≡ OK
        → IsLabelReply state.now (access_of subject mode security.now integrity.now) reply.new }
    ensures silent { result ≢ OK → reply.new ≡ reply.old }
{
    if mode == 1 {
        return decide_in(state, subject, mode, Mode::Read, security, integrity, reply);
    }
    decide_mode(state, subject, mode, security, integrity, reply)
}

/// What simple security, star and integrity say of an access in a mode to what has these labels and isn't an object:
/// by the conditions of a get but that the matrix permits it, in their order and with their reasons. Nothing changes,
/// and it doesn't allocate.
#[unsafe(no_mangle)]
pub extern "C" fn mls_decide_label(
    m: &mut Mls,
    subject: u16,
    mode: u8,
    security: &LabelNumbers,
    integrity: &LabelNumbers,
    reply: &mut u16,
) -> i32
    ensures status { result ≡ label_status m.old.monitor.value (access_of subject mode security.now integrity.now) }
    ensures answered { result ≡ OK
        → HasLabelReply m.old.monitor.value (access_of subject mode security.now integrity.now) reply.new }
    ensures same { m.new.monitor.value ≡ m.old.monitor.value }
    ensures silent { result ≢ OK → reply.new ≡ reply.old }
{
    if m.held == 0 {
        return ECLOSED;
    }
    let opened = m.monitor.lend();
    decide_labels(opened.state(), subject, mode, security, integrity, reply)
}
