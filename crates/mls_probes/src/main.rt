//! A program for checks and benchmarks; where it is given no word, it begins with an example of the library in use
//! (`example.rt`). It makes the calls that take the global allocator, each once more where it was out of memory:
//! `.ci/check-refusals` has always the same of its allocations refused; the first word says how many it makes before
//! the calls, so that each of theirs has its turn, and the second which call it makes. Where the first word is `gate`,
//! `mutex` or `alone`, threads take turns at one monitor, or one session calls, for `bench/gate_turns.sh` and
//! `bench/checks.sh` to time.
#![tactic(auto)]

mod alone;
mod calls;
mod example;
mod keeper;
mod monitors;
mod offices;
mod script;
mod sessions;
mod timing;
mod turns;
mod verdict;

use calls::{ask_check, ask_line, ask_read, ask_replay, ask_run, ask_standard, ask_threads};
use example::show_example;
use mls_monitor::StartFault;
use mls_runs::{CommandFault, LoadFault};
use offices::ask_office;
use script::ask_script;
use sessions::ask_sessions;
use std::alloc::Global;
use std::env::FillError;
use std::io;
use std::rt::Env;
use std::sync::Wait;
use std::thread::Threads;
use timing::time_turns;

/// A start file with something of each kind.
const EACH: &[u8] =
    b"{\"security\": {\"levels\": [\"U\"], \"categories\": [\"A\"]}, \"integrity\": {\"levels\": [\"lo\"], \
    \"categories\": []},\
    \"subjects\": [{\"name\": \"ann\", \"maximum\": \"U:A\", \"current\": \"U\", \"integrity\": \"lo\", \
    \"trusted\": false}],\
    \"objects\": [{\"name\": \"root\", \"parent\": null, \"security\": \"U\", \"integrity\": \"lo\"},\
    {\"name\": \"plans\", \"parent\": \"root\", \"security\": \"U\", \"integrity\": \"lo\"}],\
    \"matrix\": [{\"subject\": \"ann\", \"object\": \"plans\", \"modes\": [\"read\"]}]}";

/// A start file with as little as there can be.
const LEAST: &[u8] =
    b"{\"security\": {\"levels\": [\"U\"], \"categories\": []}, \"integrity\": {\"levels\": [\"lo\"], \
    \"categories\": []},\
    \"subjects\": [{\"name\": \"ann\", \"maximum\": \"U\", \"current\": \"U\", \"integrity\": \"lo\", \
    \"trusted\": false}],\
    \"objects\": [{\"name\": \"root\", \"parent\": null, \"security\": \"U\", \"integrity\": \"lo\"}], \"matrix\": []}";

/// A start file of a subject that may write the root.
const WRITES: &[u8] =
    b"{\"security\": {\"levels\": [\"U\"], \"categories\": []}, \"integrity\": {\"levels\": [\"lo\"], \
    \"categories\": []},\
    \"subjects\": [{\"name\": \"ann\", \"maximum\": \"U\", \"current\": \"U\", \"integrity\": \"lo\", \
    \"trusted\": false}],\
    \"objects\": [{\"name\": \"root\", \"parent\": null, \"security\": \"U\", \"integrity\": \"lo\"}],\
    \"matrix\": [{\"subject\": \"ann\", \"object\": \"root\", \"modes\": [\"write\"]}]}";

/// Scripts over that start: an object is made, permitted and read.
const SCRIPTS: [&[u8]; 2] = [
    b"ann get-write root\n$x = ann create root U lo\nann give read ann $x\nann get-read $x\n",
    b"ann check read #1\n",
];

/// Their journal.
const JOURNAL: &[u8] =
    b"0 0 0 get-write 0 yes\n1 0 0 create 0 0 0 created 1\n2 0 0 give read 0 1 yes\n3 0 0 get-read 1 yes\n";

/// Writes the lines of two faults.
fn write_both(rt: &HostRuntime) -> io::Result<()> {
    let refused = CommandFault::Load(LoadFault::Start(StartFault::NotCompatible));
    for fault in [refused, CommandFault::Memory] {
        if ask_line(rt, &fault)? {
            ask_line(rt, &fault)?;
        }
    }
    Ok(())
}

/// Runs the first script in a thread.
fn run_in_a_thread<R: Threads + Wait + Sync>(threads: &R, rt: &HostRuntime) -> io::Result<()> {
    if ask_threads(threads, rt, WRITES, SCRIPTS[0])? {
        ask_threads(threads, rt, WRITES, SCRIPTS[0])?;
    }
    Ok(())
}

/// The number in a word of the command line, 0 where there is none.
fn number(env: &impl Env, place: usize) -> u32 {
    let mut word = [0u8; 4];
    if env.arg(place, &mut word).is_err() {
        return 0;
    }
    let mut number = 0u32;
    for byte in word {
        if byte.is_ascii_digit() {
            number = number
                .saturating_mul(10)
                .saturating_add((byte - b'0') as u32);
        }
    }
    number
}

/// Makes so many allocations, and gives each back. One that is refused counts too.
fn pass_over(alloc: Global, count: u32) {
    for _ in 0..count {
        let _ = String::from_str(alloc, "one");
    }
}

/// Asks what has to do with starts.
fn ask_starts(rt: &HostRuntime, call: u32) -> io::Result<()> {
    if is_wanted(call, 1) && ask_read(rt, EACH)? {
        ask_read(rt, EACH)?;
    }
    if is_wanted(call, 2) && ask_standard(rt)? {
        ask_standard(rt)?;
    }
    if is_wanted(call, 3) && ask_check(rt, LEAST)? {
        ask_check(rt, LEAST)?;
    }
    Ok(())
}

/// Runs the scripts, and replays their journal.
fn ask_runs(rt: &HostRuntime, call: u32) -> io::Result<()> {
    if is_wanted(call, 5) && ask_run(rt, WRITES, &SCRIPTS)? {
        ask_run(rt, WRITES, &SCRIPTS)?;
    }
    if is_wanted(call, 6) && ask_replay(rt, WRITES, JOURNAL)? {
        ask_replay(rt, WRITES, JOURNAL)?;
    }
    Ok(())
}

/// Opens offices, and runs feeds.
fn ask_shared<R: Threads + Wait + Sync>(
    threads: &R,
    rt: &HostRuntime,
    call: u32,
) -> io::Result<()> {
    if is_wanted(call, 8) {
        ask_office(threads, rt, WRITES, 1)?;
    }
    if is_wanted(call, 9) {
        ask_office(threads, rt, WRITES, 3)?;
    }
    if is_wanted(call, 10) {
        ask_sessions(threads, rt, WRITES)?;
    }
    if is_wanted(call, 11) {
        ask_script(rt, WRITES)?;
    }
    Ok(())
}

/// Whether a call is to be made: the one that the words name, or each where they name none.
fn is_wanted(named: u32, call: u32) -> bool {
    named == 0 || named == call
}

/// Whether the first word asks for turns.
fn asks_for_turns(env: &impl Env) -> bool {
    let mut word = [0u8; 5];
    env.arg(1, &mut word).is_ok()
        && (word.starts_with(b"gate") || word == *b"mutex" || word == *b"alone")
}

/// Whether the program is given no word.
fn has_no_word(env: &impl Env) -> bool {
    matches!(env.arg(1, &mut [0u8; 1]), Err(FillError::NotPresent))
}

fn main(rt: HostRuntime) -> io::Result<()> {
    if asks_for_turns(&rt) {
        return time_turns(&rt, &rt);
    }
    if has_no_word(&rt) {
        show_example(&rt)?;
    }
    pass_over(rt.alloc(), number(&rt, 1));
    let call = number(&rt, 2);
    ask_starts(&rt, call)?;
    if is_wanted(call, 4) {
        write_both(&rt)?;
    }
    ask_runs(&rt, call)?;
    if is_wanted(call, 7) {
        run_in_a_thread(&rt, &rt)?;
    }
    ask_shared(&rt, &rt, call)
}
