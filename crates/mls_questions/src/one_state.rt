//! Questions about one state.
use crate::acting::chosen;
use crate::state_findings::state_findings;
use mls_answers::{ask, explain, lattice, powers, state, who};
use mls_command_line::{Actors, FlowWords};
use mls_could::who_could;
use mls_flow_text::flow;
use mls_futures_text::could;
use mls_replay::QuestionFault;
use mls_requests::read_mode;
use mls_rows::{Form, Listing};
use mls_seen::Seen;
use mls_tables::Mode;
use std::alloc::Global;

/// What is asked of one state.
#[derive(Clone, Copy)]
pub(crate) enum OfState<'a> {
    /// What a line would be answered.
    Line(&'a str),
    /// Why a line is answered as it is.
    Why(&'a str),
    /// Why the entry is answered as it is that comes next.
    Next,
    /// Who may get an object.
    Who {
        object: &'a str,
        mode: Option<&'a str>,
    },
    /// Whether the get of a line could come about, whatever some subjects do.
    Could {
        actors: Actors<'a>,
        line: &'a str,
    },
    /// What becomes of the accesses to an object, whatever some subjects do.
    WhoCould {
        actors: Actors<'a>,
        object: &'a str,
        mode: Option<&'a str>,
    },
    /// Where content of an object could flow, whatever some subjects do.
    Flow(FlowWords<'a>),
    /// What subjects may change.
    Powers {
        subject: Option<&'a str>,
        downgrades: bool,
    },
    /// What is suspicious.
    Lint,
    /// The labels and their order.
    Lattice,
    /// What there is.
    List,
    /// The start file that opens with it, and the file that is made then, which tells the old numbers of its objects.
    StartFile {
        map: Option<&'a str>,
    },
}

/// Why a line is answered as it is, or, where there is none, the next entry.
pub(crate) fn why(line: Option<&str>) -> OfState<'_> {
    match line {
        Some(line) => OfState::Why(line),
        None => OfState::Next,
    }
}

/// What there is in a state, as lines or as a start file.
pub(crate) fn listed_as(is_start: bool, map: Option<&str>) -> OfState<'_> {
    if is_start {
        OfState::StartFile { map }
    } else {
        OfState::List
    }
}

impl<'a> OfState<'a> {
    /// What is told that begins while it is answered.
    pub(crate) fn phase(&self) -> &'static str {
        match self {
            OfState::Line(_) => "asking",
            OfState::Why(_) | OfState::Next => "explaining",
            OfState::Who { .. } | OfState::WhoCould { .. } => "looking",
            OfState::Could { .. } | OfState::Flow(_) => "looking",
            OfState::Powers { .. } | OfState::Lint => "looking",
            OfState::Lattice => "drawing",
            OfState::List => "listing",
            OfState::StartFile { .. } => "writing",
        }
    }
}

/// The mode that a word names, where there is one.
fn mode_of(word: Option<&str>) -> Option<Mode> {
    match word {
        Some(word) => read_mode(word.as_bytes()),
        None => None,
    }
}

/// What is answered in the state that is seen, in a form, but for a start file.
///
/// # Errors
/// Why there is no answer.
pub(crate) fn answer_seen(
    alloc: Global,
    form: Form,
    seen: &Seen,
    asked: OfState<'_>,
) -> Result<Listing, QuestionFault> {
    match asked {
        OfState::Line(line) => ask(alloc, form, seen, line.as_bytes()),
        OfState::Why(line) => explain(alloc, form, seen, Some(line.as_bytes())),
        OfState::Next => explain(alloc, form, seen, None),
        OfState::Who { object, mode } => who(alloc, form, seen, object, mode_of(mode)),
        OfState::Could { actors, line } => {
            let (choice, words) = chosen(actors);
            could(alloc, form, seen, choice, words, line.as_bytes())
        }
        OfState::WhoCould {
            actors,
            object,
            mode,
        } => {
            let (choice, words) = chosen(actors);
            who_could(alloc, form, seen, choice, words, object, mode_of(mode))
        }
        OfState::Flow(asked) => {
            let FlowWords {
                actors,
                from,
                to,
                is_object,
            } = asked;
            let (choice, words) = chosen(actors);
            flow(alloc, form, seen, choice, words, from, to, is_object)
        }
        OfState::Powers {
            subject,
            downgrades,
        } => powers(alloc, form, seen, subject, downgrades),
        OfState::Lint => state_findings(alloc, form, seen),
        OfState::Lattice => lattice(alloc, seen),
        OfState::List | OfState::StartFile { .. } => state(alloc, form, seen),
    }
}
