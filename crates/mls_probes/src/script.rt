//! A script that is fed: each call of its feed with what it gives, and what it comes to.
ghost use Rattle.std.specs.Prelude.{◌≤◌, ◌<◌, length};

use crate::calls::show_run;
use crate::monitors::request;
use mls_monitor::{Entry, Monitor};
use mls_requests::{Ask, Reply};
use mls_runs::{MAX_SCRIPTS, Names, ScriptFeed, done_text, make_feeds, read_start};
use mls_sessions::{Answer, Feed};
use mls_tables::ObjectId;
use std::io;

/// Five asks; a line that asks nothing; an ask that binds a variable; two asks; one that binds a variable, and one that
/// names it; and a line that asks nothing.
const SCRIPT: &[u8] =
    b"ann get-write root\nann check write root\nann release read root\nann check read root\nann release read root\n\
    frob\n$x = ann create root U lo\nann give read ann $x\nann get-read $x\n\
    $y = ann create root U lo\nann check read $y\nfrob\n";

/// The most turns that are taken.
const TURNS: u32 = 12;

/// The most asks of a turn.
const AHEAD: u32 = 8;

/// What the ask of a number is told.
fn answer_to(number: u64) -> Answer {
    match number {
        1 | 9 => Answer::Held(true),
        3 => Answer::Held(false),
        5 => replied(number, Reply::Created(ObjectId(1))),
        8 => replied(number, Reply::Created(ObjectId(2))),
        _ => replied(number, Reply::Yes),
    }
}

/// The answer to a request.
fn replied(number: u64, reply: Reply) -> Answer {
    Answer::Entry(Entry::new(number, 0, request(true), reply))
}

/// Prints a call of a feed, what it gave, how long the answers then are, and whether an allocation failed for them.
fn show_call(
    rt: &impl Print,
    call: &str,
    given: &Option<Ask>,
    feed: &ScriptFeed<'_>,
) -> io::Result<()> {
    let (bytes, failed) = (feed.replies().len(), feed.failed());
    println!(rt; "{call}, {bytes} bytes, failed {failed}: {given:?}")
}

/// Has a feed give what it asks in one turn, and returns how much that is.
fn give(rt: &impl Print, feed: &mut ScriptFeed<'_>) -> io::Result<u64> {
    let first = feed.next();
    show_call(rt, "next", &first, feed)?;
    if first.is_none() {
        return Ok(0);
    }
    let mut given = 1u64;
    for _ in 1..AHEAD {
        let more = feed.ahead();
        show_call(rt, "ahead", &more, feed)?;
        if more.is_none() {
            return Ok(given);
        }
        given = given.wrapping_add(1);
    }
    Ok(given)
}

/// Tells a feed the answers to so many asks, from that of a number on.
fn tell(rt: &impl Print, feed: &mut ScriptFeed<'_>, from: u64, count: u64) -> io::Result<()> {
    for k in 0..count {
        feed.told(&answer_to(from.wrapping_add(k)));
        show_call(rt, "told", &None, feed)?;
    }
    Ok(())
}

/// Takes turn by turn until the feed gives nothing, and prints its answers.
fn play(rt: &impl Print, feed: &mut ScriptFeed<'_>) -> io::Result<()> {
    let mut asked = 0u64;
    for _ in 0..TURNS {
        let given = give(rt, feed)?;
        tell(rt, feed, asked, given)?;
        if given == 0 {
            return println!(rt; "{:?}, answers {:?}", feed.stage(), feed.replies());
        }
        asked = asked.wrapping_add(given);
    }
    Ok(())
}

/// Prints what feeds come to over a monitor, and returns whether it was out of memory.
fn finish(rt: &HostRuntime, monitor: &Monitor, feeds: &[ScriptFeed<'_>]) -> io::Result<bool>
    requires { length feeds.now ≤ MAX_SCRIPTS }
{
    match done_text(rt.alloc(), monitor, feeds, true) {
        Ok(run) => {
            let shown = show_run(rt, &run);
            drop(run);
            shown?;
            Ok(false)
        }
        Err(_) => {
            println!(rt; "done_text: out of memory")?;
            Ok(true)
        }
    }
}

/// Plays a script's feed, prints what it comes to, again where memory ran out for that alone, and returns whether the
/// feed failed.
fn play_through(
    rt: &HostRuntime,
    monitor: &Monitor,
    feeds: &mut Vec<ScriptFeed<'_>>,
) -> io::Result<bool>
    requires { (0 < length feeds.old.items) × (length feeds.old.items ≤ MAX_SCRIPTS) }
{
    play(rt, &mut feeds[0])?;
    let failed = feeds[0].failed();
    if finish(rt, monitor, feeds)? && !failed {
        finish(rt, monitor, feeds)?;
    }
    Ok(failed)
}

/// Makes the script's feed and plays it, and returns whether memory ran out for the feed.
fn play_anew(rt: &HostRuntime, names: &Names, monitor: &Monitor) -> io::Result<bool> {
    let Ok(mut feeds) = make_feeds(rt.alloc(), names, &[SCRIPT]) else {
        println!(rt; "make_feeds: out of memory")?;
        return Ok(true);
    };
    let failed = play_through(rt, monitor, &mut feeds);
    drop(feeds);
    failed
}

/// Plays the script over names and a monitor, and anew where memory ran out.
fn play_over(rt: &HostRuntime, names: &Names, monitor: &Monitor) -> io::Result<()> {
    if play_anew(rt, names, monitor)? {
        play_anew(rt, names, monitor)?;
    }
    Ok(())
}

/// Plays the script over a start file, and returns whether memory ran out before.
fn play_file(rt: &HostRuntime, file: &[u8]) -> io::Result<bool> {
    let Ok(loaded) = read_start(rt.alloc(), file) else {
        println!(rt; "a start: out of memory")?;
        return Ok(true);
    };
    let (names, start) = loaded.into_parts();
    let played = match Monitor::open(rt.alloc(), start) {
        Ok(monitor) => {
            let played = play_over(rt, &names, &monitor);
            drop(monitor);
            played.map(|_| false)
        }
        Err(_) => println!(rt; "a start: out of memory").map(|_| true),
    };
    drop(names);
    played
}

/// Plays the script over a start file, again where memory ran out before.
pub fn ask_script(rt: &HostRuntime, file: &[u8]) -> io::Result<()> {
    if play_file(rt, file)? {
        play_file(rt, file)?;
    }
    Ok(())
}
