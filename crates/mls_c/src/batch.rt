//! Batches: accesses by many pairs of labels, which are decided in one state.
ghost use Rattle.std.specs.Prelude.{◌≡◌, ◌≢◌, IfSome, MatchBool, Some, None, length, replicate};
ghost use Rattle.mls_requests.specs.declared.reply.Reply.TheVariants.{Undefined};
ghost use Rattle.mls_start_text.specs.Each.{each_of};
ghost use Rattle.mls_state.specs.State.{State as StateView};
ghost use Rattle.mls_c.specs.Answers.{number_of_reply};
ghost use Rattle.mls_c.specs.Batches.{AreLabelReplies, Stands, pair_number, pairs_status};
ghost use Rattle.mls_c.specs.LabelAsking.{access_of};
ghost use Rattle.mls_c.specs.Requests.{mode_at};
ghost use Rattle.mls_c.specs.declared.status.TheConstants.{OK, EINVAL};

use crate::answer::number_of_reply;
use crate::label::LabelNumbers;
use crate::label_access::LabelAccess;
use crate::request::mode_at;
use crate::standing::Standing;
use crate::status::{EINVAL, OK};
use mls_labels::{IntLabel, SecLabel};
use mls_requests::Reply;
use mls_tables::{Mode, SubjectId};

/// The labels of a row or a file, in numbers.
#[repr(C)]
#[derive(Clone, Copy)]
pub struct LabelPair {
    pub security: LabelNumbers,
    pub integrity: LabelNumbers,
}

impl LabelPair {
    /// The access to what has these labels, where they are labels of the first 64 categories.
    #[inline(always)]
    fn short_access(&self, subject: u16, mode: u8, known: Mode) -> Option<LabelAccess>
        requires { mode_at mode ≡ Some known }
        ensures { IfSome result (λ a. access_of subject mode self.now.security self.now.integrity ≡ Some a) }
    {
        let security = self.security.short_label()?;
        let integrity = self.integrity.short_label()?;
        Some(LabelAccess {
            subject: SubjectId::new(subject),
            mode: known,
            security: SecLabel::of(security),
            integrity: IntLabel::of(integrity),
        })
    }
}

/// The number of what is said of a pair of labels of whatever categories. It isn't put where it is called, so that
/// labels of the first 64 pay nothing for the others.
#[inline(never)]
fn long_number(standing: &Standing, subject: u16, mode: u8, pair: &LabelPair) -> Option<u16>
    ensures { result ≡ pair_number standing.now subject mode pair.now }
{
    let access = LabelAccess::of(subject, mode, &pair.security, &pair.integrity)?;
    let said = standing.reply(&access);
    Some(number_of_reply(&said))
}

/// The number of what is said of a pair of labels, by one word of categories each where they have no other.
#[inline(always)]
fn number_in(
    standing: &Standing,
    subject: u16,
    mode: u8,
    known: Mode,
    pair: &LabelPair,
) -> Option<u16>
    requires { mode_at mode ≡ Some known }
    ensures { result ≡ pair_number standing.now subject mode pair.now }
{
    let Some(access) = pair.short_access(subject, mode, known) else {
        return long_number(standing, subject, mode, pair);
    };
    let said = standing.reply(&access);
    Some(number_of_reply(&said))
}

/// Puts what is said of pairs into as many replies, up to the first that isn't labels': whether there is none.
#[inline(always)]
fn put_in(
    standing: &Standing,
    subject: u16,
    mode: u8,
    known: Mode,
    pairs: &[LabelPair],
    replies: &mut [u16],
) -> bool
    requires mode { mode_at mode ≡ Some known }
    requires many { length pairs.now ≡ length replies.old }
    ensures { MatchBool result (each_of (pair_number standing.now subject mode) pairs.now ≡ Some replies.new)
        (each_of (pair_number standing.now subject mode) pairs.now ≡ None) }
{
    let standing = *standing;
    for (k, pair) in pairs.iter().enumerate() {
        let Some(number) = number_in(&standing, subject, mode, known, pair) else {
            return false;
        };
        replies[k] = number;
    }
    true
}

/// The same in a mode that is known when it runs. Each mode has a loop of its own, which asks nothing of the mode.
fn put_replies(
    standing: &Standing,
    subject: u16,
    mode: u8,
    known: Mode,
    pairs: &[LabelPair],
    replies: &mut [u16],
) -> bool
    requires mode { mode_at mode ≡ Some known }
    requires many { length pairs.now ≡ length replies.old }
    ensures { MatchBool result (each_of (pair_number standing.now subject mode) pairs.now ≡ Some replies.new)
        (each_of (pair_number standing.now subject mode) pairs.now ≡ None) }
{
    match known {
        Mode::Execute => put_in(standing, subject, mode, Mode::Execute, pairs, replies),
        Mode::Read => put_in(standing, subject, mode, Mode::Read, pairs, replies),
        Mode::Append => put_in(standing, subject, mode, Mode::Append, pairs, replies),
        Mode::Write => put_in(standing, subject, mode, Mode::Write, pairs, replies),
    }
}

/// Says of each reply that something is undefined, so that none is a grant.
fn refuse(replies: &mut [u16]) -> i32
    ensures status { result ≡ EINVAL }
    ensures refused { replies.new ≡ replicate (length replies.old) (number_of_reply Undefined) }
{
    replies.fill(number_of_reply(&Reply::Undefined));
    EINVAL
}

/// Decides a batch by the standing of its subject.
pub(crate) fn decide_pairs(
    standing: &Standing,
    subject: u16,
    mode: u8,
    pairs: &[LabelPair],
    replies: &mut [u16],
) -> i32
    requires { length pairs.now ≡ length replies.old }
    ensures status { result ≡ pairs_status mode pairs.now }
    ensures answered { result ≡ OK → (v : StateView) → Stands v subject standing.now
        → AreLabelReplies v subject mode pairs.now replies.new }
    ensures refused { result ≢ OK
        → replies.new ≡ replicate (length replies.old) (number_of_reply Undefined) }
{
    let Some(known) = mode_at(mode) else {
        return refuse(replies);
    };
    if !put_replies(standing, subject, mode, known, pairs, replies) {
        return refuse(replies);
    }
    OK
}
