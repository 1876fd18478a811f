//! The program `mls`: it runs the command that its words name; without words it answers the script on standard input
//! over the standard start.
#![tactic(auto)]

mod commands;

ghost use Rattle.std.specs.Prelude.{◌<◌, ◌≤◌, length, vec_len, All};

use crate::commands::{
    RunJournal, check, complete, discard, ended_run, init, lent, open_run_journal, read_scripts,
    replay, serve_standard, tell_starts, verify,
};
use mls_command_line::{Asked, Job, RunWords, read_words};
use mls_files::start_file;
use mls_questions::answer;
use mls_replay::MAX_SCRIPTS;
use mls_runs::{run_serial, run_threads};
use mls_scripts::SCRIPT_LIMIT;
use mls_service::serve_journal;
use mls_terminal::{Held, NO_MEMORY, Progress, file_refused, refused};
use std::env;
use std::env::FillError;
use std::io::ErrorKind;
use std::process::ExitCode;
use std::rt::Env;
use std::sync::Wait;
use std::thread::Threads;
use std::time::Clock;

/// The line on standard error where the count of scripts is none that can be run.
const SCRIPT_COUNT: &str = "mls: run: at most 64 scripts";

/// Whether the program was given a word. No word is copied, so it needs no memory and takes any bytes.
fn has_words(env: &impl Env) -> bool {
    !matches!(env.arg(1, &mut [0u8; 1]), Err(FillError::NotPresent))
}

/// Runs scripts over the bytes of a start file: each in a thread of its own, or one after the other where that was
/// asked for.
fn run_texts<R: Threads + Wait + Sync>(
    threads: &R,
    progress: &mut Progress<'_>,
    start: &[u8],
    texts: &[&[u8]],
    words: &RunWords<'_>,
    journal: &mut Option<RunJournal<'_>>,
) -> ExitCode
    requires count { (0 < length texts.now) × (length texts.now ≤ MAX_SCRIPTS) }
    requires limit { All (λ text. length text.now ≤ SCRIPT_LIMIT) texts.now }
{
    let alloc = progress.rt().alloc();
    progress.begin("running");
    let done = if words.is_serial {
        run_serial(alloc, start, texts, words.journal.is_some())
    } else {
        run_threads(threads, alloc, start, texts, words.journal.is_some())
    };
    ended_run(progress, done, start, texts, words, journal)
}

/// Runs scripts over the bytes of a start file, once they were read and the journal's file was opened.
fn lend_and_run<R: Threads + Wait + Sync>(
    threads: &R,
    progress: &mut Progress<'_>,
    start: &[u8],
    texts: &[Vec<u8>],
    words: &RunWords<'_>,
    journal: &mut Option<RunJournal<'_>>,
) -> ExitCode
    requires count { (0 < length texts.now) × (length texts.now ≤ MAX_SCRIPTS) }
    requires limit { All (λ text. vec_len text ≤ SCRIPT_LIMIT) texts.now }
{
    let Ok(slices) = lent(progress.rt().alloc(), texts) else {
        discard(progress.rt(), journal);
        progress.end();
        return refused(progress.rt(), NO_MEMORY, 1);
    };
    let status = run_texts(threads, progress, start, &slices, words, journal);
    drop(slices);
    status
}

/// Runs scripts that were read over the bytes of a start file, once the journal's file is open. A person at a terminal is
/// told first which of them is itself a start file.
fn open_and_run<R: Threads + Wait + Sync>(
    threads: &R,
    progress: &mut Progress<'_>,
    held: Held,
    start: &[u8],
    texts: &[Vec<u8>],
    words: &RunWords<'_>,
) -> ExitCode
    requires count { (0 < length texts.now) × (length texts.now ≤ MAX_SCRIPTS) }
    requires limit { All (λ text. vec_len text ≤ SCRIPT_LIMIT) texts.now }
{
    tell_starts(progress, texts, words);
    match open_run_journal(progress, held, words) {
        Ok(mut journal) => {
            let status = lend_and_run(threads, progress, start, texts, words, &mut journal);
            drop(journal);
            status
        }
        Err(status) => status,
    }
}

/// Reads the scripts of a run whose start file was read, and runs them.
fn read_and_run<R: Threads + Wait + Sync>(
    threads: &R,
    progress: &mut Progress<'_>,
    mut held: Held,
    start: &[u8],
    words: &RunWords<'_>,
) -> ExitCode
    requires { (0 < vec_len words.now.scripts) × (vec_len words.now.scripts ≤ MAX_SCRIPTS) }
{
    match read_scripts(progress, &mut held, words) {
        Ok(texts) => {
            let status = open_and_run(threads, progress, held, start, &texts, words);
            drop(texts);
            status
        }
        Err(status) => {
            drop(held);
            status
        }
    }
}

/// Runs scripts over a start file.
fn run<R: Threads + Wait + Sync>(
    threads: &R,
    progress: &mut Progress<'_>,
    words: &RunWords<'_>,
) -> ExitCode {
    if words.scripts.is_empty() || words.scripts.len() > MAX_SCRIPTS {
        return refused(progress.rt(), SCRIPT_COUNT, 2);
    }
    let mut held = Held::new(progress.rt().alloc(), words.journal.is_some());
    let start = match start_file(words.start).read_held(progress, &mut held) {
        Ok(bytes) => bytes,
        Err(fault) => return file_refused(progress, words.start, fault),
    };
    let status = read_and_run(threads, progress, held, &start, words);
    drop(start);
    status
}

/// Whether the lines that tell of a fault of a job are fixed.
fn has_fixed_lines(job: &Job<'_>) -> bool {
    match job {
        Job::Question(_) | Job::Init { .. } | Job::Complete { .. } => false,
        Job::Answer
        | Job::Check { .. }
        | Job::Run(_)
        | Job::Replay { .. }
        | Job::Verify(_)
        | Job::Serve(_) => true,
    }
}

/// Does a job. Threads are started by a run of scripts, and by a service that makes marks.
fn run_job<R: Threads + Wait + Clock + Sync>(
    threads: &R,
    progress: &mut Progress<'_>,
    job: Job<'_>,
) -> ExitCode {
    match job {
        Job::Init { folder } => init(progress, folder),
        Job::Complete { short } => complete(progress, short),
        Job::Check { start } => check(progress, start),
        Job::Run(words) => {
            let status = run(threads, progress, &words);
            drop(words);
            status
        }
        Job::Replay { start, journal } => replay(progress, start, journal),
        Job::Verify(words) => verify(progress, &words),
        Job::Serve(words) => serve_journal(threads, progress, &words),
        Job::Question(question) => answer(progress, &question),
        Job::Answer => serve_standard(progress.rt()),
    }
}

/// Does what the words ask for.
fn run_words<R: Threads + Wait + Clock + Sync>(
    threads: &R,
    rt: &HostRuntime,
    words: &[String],
) -> ExitCode {
    match read_words(rt, words) {
        Ok(Asked { job, is_json }) => {
            let has_fixed_lines = has_fixed_lines(&job);
            let mut progress = Progress::new(rt, is_json, has_fixed_lines);
            let status = run_job(threads, &mut progress, job);
            drop(progress);
            status
        }
        Err(status) => status,
    }
}

/// Reads the words and does what they ask for.
fn run_args<R: Threads + Wait + Clock + Sync>(threads: &R, rt: &HostRuntime) -> ExitCode {
    let args = match env::args(rt) {
        Ok(args) => args,
        Err(error) if error.kind() == ErrorKind::OutOfMemory => return refused(rt, NO_MEMORY, 1),
        Err(_) => return refused(rt, "mls: a word isn't UTF-8", 2),
    };
    let Ok(words) = args.collect::<Vec<String>>(rt.alloc()) else {
        return refused(rt, NO_MEMORY, 1);
    };
    let status = run_words(threads, rt, &words);
    drop(words);
    status
}

fn main(rt: HostRuntime) -> ExitCode {
    if has_words(&rt) {
        run_args(&rt, &rt)
    } else {
        serve_standard(&rt)
    }
}
