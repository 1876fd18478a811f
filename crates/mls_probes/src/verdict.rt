//! What a run of feeds left: whether its journal is as it must be, and whether each feed was told its own entries.

use crate::keeper::{FEEDS, Keeper};
use crate::monitors::{BEFORE, OTHER, request, show_monitor};
use mls_monitor::Monitor;
use mls_requests::{Entry, Reply};
use mls_tables::ObjectId;
use std::io;

/// Whether these are the numbers and replies of a session's entries in a journal, each once and in their order.
fn are_of(kept: &[(u64, Reply)], session: u32, journal: &[Entry]) -> bool {
    let mut own = 0usize;
    for entry in journal {
        if entry.session == session {
            if kept.get(own) != Some(&(entry.number, entry.reply)) {
                return false;
            }
            own = own.wrapping_add(1);
        }
    }
    own == kept.len()
}

/// Whether an entry may stand at a place of the journal: entry k makes object k, and those before the run are of the
/// other session.
fn fits(entry: &Entry, place: u16) -> bool {
    let reply = if place == 0 {
        Reply::Yes
    } else {
        Reply::Created(ObjectId(place))
    };
    let asked = request(place != 0);
    let is_right = entry.number == u64::from(place)
        && entry.reply == reply
        && entry.request == asked;
    if (place as usize) < BEFORE {
        is_right && entry.session == OTHER
    } else {
        is_right && u64::from(entry.session) < FEEDS
    }
}

/// Whether each entry of a journal may stand at its place.
fn is_in_order(journal: &[Entry]) -> bool {
    let mut place = 0u16;
    for entry in journal {
        if !fits(entry, place) {
            return false;
        }
        place = place.wrapping_add(1);
    }
    true
}

/// Prints what a feed was told, and how it stands.
fn show_feed(rt: &impl Print, feed: &Keeper<'_>, journal: &[Entry]) -> io::Result<()> {
    let (number, told, stops) = (feed.number, feed.kept.len(), feed.stops);
    let own = are_of(&feed.kept, number, journal);
    print!(rt;
        "; feed {number} told {told}, its own {own}, stopped {stops}, {:?}",
        feed.stage
    )
}

/// Prints what a run left, as the rest of a line.
pub fn show_run(rt: &impl Print, monitor: &Monitor, feeds: &[Keeper<'_>]) -> io::Result<()> {
    show_monitor(rt, monitor)?;
    let journal = monitor.entries();
    print!(rt; ", in order {}", is_in_order(journal))?;
    for feed in feeds {
        show_feed(rt, feed, journal)?;
    }
    println!(rt; "")
}
