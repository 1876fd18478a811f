//! Who acts, where it is asked what could come about.
use mls_command_line::{Actors, FlowWords};
use mls_could::{Choice, actors_of};
use mls_replay::named_subject;
use mls_seen::Seen;
use mls_tables::SubjectId;

/// Whom a question has act, and by which words.
pub(crate) fn chosen(actors: Actors<'_>) -> (Choice, Option<&str>) {
    match actors {
        Actors::Untrusted => (Choice::Untrusted, None),
        Actors::All => (Choice::All, None),
        Actors::By(words) => (Choice::Named, Some(words)),
        Actors::Without(words) => (Choice::Others, Some(words)),
    }
}

/// Whether a word names a known subject.
fn is_known(seen: &Seen, word: &str) -> bool {
    match named_subject(seen.names(), word) {
        Ok(s) => seen.state().is_subject(s),
        Err(_) => false,
    }
}

/// The first word of those who act that names no known subject, where there is one.
pub(crate) fn unknown_word<'a>(seen: &Seen, actors: Actors<'a>) -> &'a str {
    let words = match actors {
        Actors::By(words) | Actors::Without(words) => words,
        Actors::Untrusted | Actors::All => return "",
    };
    for word in words.split(',') {
        if !is_known(seen, word) {
            return word;
        }
    }
    ""
}

/// Whether a subject doesn't act.
fn is_idle(rt: &HostRuntime, seen: &Seen, actors: Actors<'_>, s: SubjectId) -> bool {
    let (choice, words) = chosen(actors);
    match actors_of(rt.alloc(), seen.names(), seen.state(), choice, words) {
        Ok(flags) => !matches!(flags.get(s.number() as usize), Some(true)),
        Err(_) => false,
    }
}

/// Tells that the subject to which content never flows doesn't act, where it doesn't.
pub(crate) fn tell_idle(rt: &HostRuntime, seen: &Seen, words: FlowWords<'_>) {
    let word = words.to.unwrap_or("");
    if words.is_object || word.is_empty() {
        return;
    }
    if let Some(s) = seen.names().subject(word) {
        if is_idle(rt, seen, words.actors, s) {
            let _ = eprintln!(rt; "mls: {word}: it does not act (--all?)");
        }
    }
}
