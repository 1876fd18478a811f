//! The feeds of a run in threads, and what they print.
ghost use Rattle.std.specs.Prelude.{◌≡◌, ◌≤◌, ◌++◌, length, map, vec_len, string_bytes, is_some, IfOk, IfSome};
ghost use Rattle.std.specs.Prelude.{OnOk};
ghost use Rattle.std.specs.List.{list_any};
ghost use Rattle.mls_monitor.specs.declared.feed.Stage.TheVariants as stage;
ghost use Rattle.mls_monitor.specs.Journal.{IsLegal, kept_of};
ghost use Rattle.mls_monitor.specs.Feeds.{AllAt};
ghost use Rattle.mls_journal.specs.EntryText.{journal_text};
ghost use Rattle.mls_replay.specs.RunTexts.{ending};
ghost use Rattle.mls_runs.specs.RunFeeds.{AreFeedsOf, NoneFailed, fed_texts};

use mls_lines::Names;
use mls_monitor::Monitor;
use mls_replay::{MAX_SCRIPTS, RunText, push_ending, push_heading, with_journal};
use mls_scripts::ScriptFeed;
use std::alloc::{AllocError, Global};

/// The feeds of scripts over these names, in their order.
#[tactic(auto, using(crate::proofs::Feeds::at_snoc, crate::proofs::Feeds::feeds_taken))]
pub fn make_feeds<'a>(
    alloc: Global,
    names: &'a Names,
    scripts: &[&'a [u8]],
) -> Result<Vec<ScriptFeed<'a>>, AllocError>
    ensures ready { IfOk result (λ feeds. AllAt (λ f. f.stage) stage.Ready feeds.items) }
    ensures count { IfOk result (λ feeds. vec_len feeds ≡ length scripts.now) }
    ensures feeds { IfOk result (λ feeds. AreFeedsOf names.now (map (λ script. script.now) scripts.now) feeds.items) }
{
    let mut feeds = Vec::new(alloc);
    for script in scripts {
        feeds.push(ScriptFeed::new(alloc, names, script))?;
    }
    Ok(feeds)
}

/// Whether an allocation failed for some script.
fn any_failed(feeds: &[ScriptFeed<'_>]) -> bool
    ensures { result ≡ list_any (λ f. f.failed) feeds.now }
{
    feeds.iter().any(|feed| feed.failed())
}

/// Appends the answers of each script under its heading, the first as session 0.
fn push_texts(feeds: &[ScriptFeed<'_>], output: &mut Vec<u8>) -> Result<(), AllocError>
    requires { length feeds.now ≤ MAX_SCRIPTS }
    ensures { OnOk result (output.new.items ≡ output.old.items ++ fed_texts 0 feeds.now) }
{
    let mut session = 0u32;
    for feed in feeds {
        push_heading(output, session)?;
        output.extend_from_slice(feed.replies())?;
        session += 1;
    }
    Ok(())
}

/// Appends what a run prints: the answers of each script under its heading, and how the monitor stands at the end.
fn push_feeds(
    alloc: Global,
    monitor: &Monitor,
    feeds: &[ScriptFeed<'_>],
    output: &mut Vec<u8>,
) -> Result<(), AllocError>
    requires { length feeds.now ≤ MAX_SCRIPTS }
    ensures { OnOk result
        (output.new.items ≡ output.old.items ++ fed_texts 0 feeds.now ++ ending (length monitor.now.entries)) }
{
    push_texts(feeds, output)?;
    push_ending(alloc, monitor, output)
}

/// What a run came to whose scripts were all asked to their end; with the text of the entries that aren't forgotten.
#[tactic(auto, using(crate::proofs::Feeds::none_failed))]
pub fn done_text(
    alloc: Global,
    monitor: &Monitor,
    feeds: &[ScriptFeed<'_>],
    journal: bool,
) -> Result<RunText, AllocError>
    requires { length feeds.now ≤ MAX_SCRIPTS }
    ensures journal { IfOk result
        (λ run. IfSome run.journal (λ text. string_bytes text ≡ journal_text (kept_of monitor.now))) }
    ensures output { IfOk result
        (λ run. run.output.items ≡ fed_texts 0 feeds.now ++ ending (length monitor.now.entries)) }
    ensures asked { IfOk result (λ run. is_some run.journal ≡ journal) }
    ensures whole { OnOk result (NoneFailed feeds.now) }
    ensures legal { IsLegal monitor.now.start monitor.now.entries }
{
    // that the journal is legal
    let _ = monitor.entries();
    if any_failed(feeds) {
        return Err(AllocError);
    }
    let mut output = Vec::new(alloc);
    push_feeds(alloc, monitor, feeds, &mut output)?;
    with_journal(alloc, monitor, output, journal)
}
