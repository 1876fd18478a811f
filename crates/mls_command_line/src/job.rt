//! What a command line asks for.

use crate::question::Question;
use mls_marks::Digest;

/// What a run of scripts is asked for.
#[derive(Drop)]
pub struct RunWords<'a> {
    pub start: &'a str,
    pub scripts: Vec<&'a str>,
    /// The file that the journal is written to, where one is.
    pub journal: Option<&'a str>,
    /// Whether the scripts run one after the other, and not each in a thread of its own.
    pub is_serial: bool,
    /// Whether a line that isn't understood is a fault.
    pub is_strict: bool,
}

/// What a service is asked for.
#[derive(Clone, Copy)]
pub struct ServeWords<'a> {
    pub start: &'a str,
    /// The journal's file.
    pub journal: &'a str,
    /// The file of the journal's marks, where they are made.
    pub marks: Option<&'a str>,
    /// The number of the session that asks, unless each line says it.
    pub session: u32,
    /// Whether each line begins with the number of its session.
    pub has_sessions: bool,
    /// Whether an answer tells the number of its entry.
    pub has_numbers: bool,
    /// Whether the names of the start and the accesses that are held are told first.
    pub has_names: bool,
    /// Whether a torn end of the journal is cut off.
    pub is_recovering: bool,
    /// Whether damage that no crash leaves is cut off then, too.
    pub is_cutting_damage: bool,
    /// How many bytes a segment of the journal has at most, where it is in segments.
    pub segment: Option<u32>,
    /// Whether all segments are replayed.
    pub is_from_start: bool,
}

/// What a verification of marks is asked for.
#[derive(Clone, Copy)]
pub struct VerifyWords<'a> {
    pub start: &'a str,
    pub journal: &'a str,
    /// The file of the journal's marks.
    pub marks: &'a str,
    /// What the chain of digests begins from, where that is told.
    pub from: Option<Digest>,
    /// A digest that the chain must contain, where one is told.
    pub digest: Option<Digest>,
}

/// What a command line asks for.
#[derive(Drop)]
pub enum Job<'a> {
    /// To answer the script on standard input.
    Answer,
    /// To make the files of a first policy in a folder.
    Init { folder: &'a str },
    /// To print the whole start file of a short one.
    Complete { short: &'a str },
    /// To check a start file.
    Check { start: &'a str },
    /// To run scripts over a start file.
    Run(RunWords<'a>),
    /// To replay a journal over a start file.
    Replay { start: &'a str, journal: &'a str },
    /// To replay a journal over a start file, and to check its marks.
    Verify(VerifyWords<'a>),
    /// To serve standard input over a start file and the file of a journal.
    Serve(ServeWords<'a>),
    /// To answer a question about start files or journals.
    Question(Question<'a>),
}

/// What a command line asks for, and how it is told.
#[derive(Drop)]
pub struct Asked<'a> {
    pub job: Job<'a>,
    /// Whether JSON objects are asked for.
    pub is_json: bool,
}
