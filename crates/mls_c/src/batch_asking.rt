//! Asking an open monitor about batches: accesses to what has labels and isn't an object, all in one state.
ghost use Rattle.std.specs.Prelude.{◌≡◌, ◌≢◌, length, replicate};
ghost use Rattle.mls_requests.specs.declared.reply.Reply.TheVariants.{Undefined};
ghost use Rattle.mls_c.specs.Answers.{number_of_reply};
ghost use Rattle.mls_c.specs.Batches.{AreLabelReplies, HasLabelReplies, batch_status, pairs_status};
ghost use Rattle.mls_c.specs.declared.status.TheConstants.{OK, EINVAL};

use crate::batch::{LabelPair, decide_pairs};
use crate::handle::Mls;
use crate::standing::Standing;
use crate::status::ECLOSED;
use mls_state::State;
use mls_tables::SubjectId;

/// Decides a batch in a state.
fn decide_batch(
    state: &State,
    subject: u16,
    mode: u8,
    pairs: &[LabelPair],
    replies: &mut [u16],
) -> i32
    requires { length pairs.now ≡ length replies.old }
    ensures status { result ≡ pairs_status mode pairs.now }
    ensures answered { result ≡ OK → AreLabelReplies state.now subject mode pairs.now replies.new }
    ensures refused { result ≢ OK
        → replies.new ≡ replicate (length replies.old) (number_of_reply Undefined) }
{
    let standing = Standing::of(state, SubjectId::new(subject));
    decide_pairs(&standing, subject, mode, pairs, replies)
}

/// What [`mls_decide_label`](crate::mls_decide_label) says of each of many pairs of labels, in their order and in one
/// state: each pair has its reply in its place. Where the mode is none, or the numbers of a pair are no labels, nothing is
/// decided, and each reply says that something is undefined. Nothing changes, and it doesn't allocate.
#[unsafe(no_mangle)]
pub extern "C" fn mls_decide_label_pairs(
    m: &mut Mls,
    subject: u16,
    mode: u8,
    pairs: &[LabelPair],
    replies: &mut [u16],
) -> i32
    requires { length pairs.now ≡ length replies.old }
    ensures status { result ≡ batch_status m.old.monitor.value mode pairs.now }
    ensures answered { result ≡ OK
        → HasLabelReplies m.old.monitor.value subject mode pairs.now replies.new }
    ensures refused { result ≡ EINVAL
        → replies.new ≡ replicate (length replies.old) (number_of_reply Undefined) }
    ensures same { m.new.monitor.value ≡ m.old.monitor.value }
    ensures silent { result ≢ OK → result ≢ EINVAL → replies.new ≡ replies.old }
{
    if m.held == 0 {
        return ECLOSED;
    }
    let opened = m.monitor.lend();
    decide_batch(opened.state(), subject, mode, pairs, replies)
}
