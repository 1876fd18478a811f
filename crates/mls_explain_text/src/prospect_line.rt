//! The line of what a subject may get.
ghost use Rattle.std.specs.Prelude.{◌≡◌, ◌∷◌, ◌++◌, codes, string_bytes, OnOk};
ghost use Rattle.std.specs.List.{flat_map, list_any};
ghost use Rattle.mls_requests.specs.ModeWords.{mode_word};
ghost use Rattle.mls_requests.specs.ReplyWords.{reply_text};
ghost use Rattle.mls_wording.specs.Wording.{subject_text, object_text, security_text};
ghost use Rattle.mls_explain_text.specs.Responses.{is_granted};
ghost use Rattle.mls_explain_text.specs.Who.{release_text, one_more_release, releases_text, level_text, way_text};
ghost use Rattle.mls_explain_text.specs.Who.{denial_text, outcome_line, prospect_line, prospect_text};
ghost use Rattle.mls_explain_text.specs.Who.{prospect_lines, is_open};

use crate::lasting::told_reply;
use crate::response::is_granted;
use mls_explain::{Prospect, Way, releases};
use mls_labels::SecLabel;
use mls_lines::Names;
use mls_requests::{Reply, mode_word};
use mls_rules::State;
use mls_tables::{Mode, ObjectId, SubjectId};
use mls_wording::{push_object, push_reply, push_security, push_subject};
use std::alloc::{AllocError, Global};

/// Appends the mode and the object of an access that is to be released.
fn push_release(
    text: &mut String,
    names: &Names,
    access: &(SubjectId, ObjectId, Mode),
) -> Result<(), AllocError>
    ensures { OnOk result (string_bytes text.new ≡ string_bytes text.old ++ release_text names.now access.now) }
{
    text.push_str(mode_word(access.2))?;
    text.push_str(" ")?;
    push_object(text, names, access.1)
}

/// Appends more accesses that are to be released.
fn push_more(
    text: &mut String,
    names: &Names,
    accesses: &[(SubjectId, ObjectId, Mode)],
) -> Result<(), AllocError>
    ensures { OnOk result
        (string_bytes text.new ≡ string_bytes text.old ++ flat_map (one_more_release names.now) accesses.now) }
{
    for access in accesses {
        text.push_str(", ")?;
        push_release(text, names, access)?;
    }
    Ok(())
}

/// Appends after which releases a label is granted, of which there are some.
fn push_some(
    text: &mut String,
    names: &Names,
    first: &(SubjectId, ObjectId, Mode),
    more: &[(SubjectId, ObjectId, Mode)],
) -> Result<(), AllocError>
    ensures { OnOk result
        (string_bytes text.new ≡ string_bytes text.old ++ releases_text names.now (first.now ∷ more.now)) }
{
    text.push_str(" after releasing ")?;
    push_release(text, names, first)?;
    push_more(text, names, more)
}

/// Appends after which releases a label is granted.
fn push_releases(
    text: &mut String,
    names: &Names,
    accesses: &[(SubjectId, ObjectId, Mode)],
) -> Result<(), AllocError>
    ensures { OnOk result
        (string_bytes text.new ≡ string_bytes text.old ++ releases_text names.now accesses.now) }
{
    match accesses {
        [] => Ok(()),
        [first, more @ ..] => push_some(text, names, first, more),
    }
}

/// Appends the label with which a get is granted, and after which releases.
fn push_level(
    text: &mut String,
    names: &Names,
    level: SecLabel,
    releases: &[(SubjectId, ObjectId, Mode)],
) -> Result<(), AllocError>
    ensures { OnOk result
        (string_bytes text.new ≡ string_bytes text.old ++ level_text names.now level releases.now) }
{
    text.push_str(", level ")?;
    push_security(text, names, level)?;
    push_releases(text, names, releases)
}

/// Appends what a get would take.
fn push_way(
    text: &mut String,
    names: &Names,
    way: Way,
    releases: &[(SubjectId, ObjectId, Mode)],
) -> Result<(), AllocError>
    ensures { OnOk result
        (string_bytes text.new ≡ string_bytes text.old ++ way_text names.now way releases.now) }
{
    match way {
        Way::Level(level) | Way::Released(level) => push_level(text, names, level, releases),
        Way::Never => text.push_str(", never"),
    }
}

/// Appends after a denial what the get would take, and after any other reply nothing.
fn push_denial(
    text: &mut String,
    names: &Names,
    reply: Reply,
    way: Way,
    releases: &[(SubjectId, ObjectId, Mode)],
) -> Result<(), AllocError>
    ensures { OnOk result
        (string_bytes text.new ≡ string_bytes text.old ++ denial_text names.now reply way releases.now) }
{
    match reply {
        Reply::No(_) => push_way(text, names, way, releases),
        _ => Ok(()),
    }
}

/// Appends the reply to a get, with the condition that is told of it, and what follows it, with what is to be released,
/// to the end of the line.
///
/// # Errors
/// `AllocError` where an allocation failed. The text may then have a part of it.
pub fn push_outcome(
    text: &mut String,
    names: &Names,
    prospect: &Prospect,
    releases: &[(SubjectId, ObjectId, Mode)],
) -> Result<(), AllocError>
    ensures { OnOk result
        (string_bytes text.new ≡ string_bytes text.old ++ outcome_line names.now prospect.now releases.now) }
{
    push_reply(text, told_reply(prospect.reply, prospect.way))?;
    push_denial(text, names, prospect.reply, prospect.way, releases)?;
    text.push_str("\n")
}

/// Appends the line of what a subject may get in a mode.
pub(crate) fn push_prospect(
    text: &mut String,
    names: &Names,
    prospect: &Prospect,
    releases: &[(SubjectId, ObjectId, Mode)],
) -> Result<(), AllocError>
    ensures { OnOk result
        (string_bytes text.new ≡ string_bytes text.old ++ prospect_line names.now prospect.now releases.now) }
{
    push_subject(text, names, prospect.subject)?;
    text.push_str(" ")?;
    text.push_str(mode_word(prospect.mode))?;
    text.push_str(" ")?;
    push_outcome(text, names, prospect, releases)
}

/// Appends the line of what a subject may get in a mode in this state.
fn push_seen(
    alloc: Global,
    text: &mut String,
    names: &Names,
    state: &State,
    prospect: &Prospect,
) -> Result<(), AllocError>
    ensures { OnOk result
        (string_bytes text.new ≡ string_bytes text.old ++ prospect_text names.now state.now prospect.now) }
{
    let releases = releases(alloc, state, prospect.subject, &prospect.way)?;
    let pushed = push_prospect(text, names, prospect, &releases);
    drop(releases);
    pushed
}

/// Appends the lines of what subjects may get in this state.
pub(crate) fn push_prospects(
    alloc: Global,
    text: &mut String,
    names: &Names,
    state: &State,
    prospects: &[Prospect],
) -> Result<(), AllocError>
    ensures { OnOk result
        (string_bytes text.new ≡ string_bytes text.old ++ prospect_lines names.now state.now prospects.now) }
{
    for prospect in prospects {
        push_seen(alloc, text, names, state, prospect)?;
    }
    Ok(())
}

/// Whether one of the gets would be granted.
pub(crate) fn is_open(prospects: &[Prospect]) -> bool
    ensures { result ≡ is_open prospects.now }
{
    for prospect in prospects {
        if is_granted(prospect.reply) {
            return true;
        }
    }
    false
}
