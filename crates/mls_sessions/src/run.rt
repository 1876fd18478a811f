//! A run of feeds: one thread for each session, which asks for what its feed gives.
ghost use Rattle.std.specs.Prelude.{◌≡◌, ◌≢◌, ◌+◌, ◌<◌, ◌≤◌, ◌∷◌, ◌++◌, [], true, false, length, drop, IfOk, IfErr, OnOk};
ghost use Rattle.std.specs.Prelude.{IsTrue, vec_len, vec_capacity};
ghost use denote.Param.Send.{IsSync};
ghost use Rattle.mls_turns.specs.Journals.{journal_of};
ghost use Rattle.mls_sessions.specs.Sessions.{IsOf, Ascending, newcomers, is_count};
ghost use Rattle.mls_sessions.specs.Rule.{begun, base, news};
ghost use Rattle.mls_sessions.specs.Runs.{Returned, Grew};
ghost use Rattle.mls_monitor.specs.Feeds.{AllAt};
ghost use Rattle.mls_sessions.specs.Feeds.{AllServed, AllTold, worst_of};
ghost use Rattle.mls_monitor.specs.Feeds.{AllFed};

use crate::asked::Asked;
use crate::attend::{Back, attend_unless};
use crate::backoff::Backoff;
use crate::limits::MAX_SESSIONS;
use crate::office::Office;
use crate::office_fault::OfficeFaultKind;
use crate::returns::{pop_feed, pop_session, put_last};
use crate::run_fault::{RunDone, RunFault, RunFaultKind};
use crate::session::Session;
use mls_monitor::{Feed, Monitor, Stage};
use std::alloc::{AllocError, Global};
use std::snapshot::Snapshot;
use std::sync::Wait;
use std::sync::atomic::{AtomicBool, Ordering};
use std::thread;
use std::thread::Threads;

/// A thread for each session, which come back in their order with their feeds. Where a thread can't be started its
/// closure comes back, and is called here with the word to leave the feed alone.
#[tactic(auto, using(crate::proofs::Feeds::served_none))]
fn attend_all<R: Threads + Wait + Sync, F: Feed + Send + Drop>(
    rt: &R,
    alloc: Global,
    office: &Office,
    mut sessions: Vec<Session>,
    mut feeds: Vec<F>,
    back: Vec<Session>,
    fed: Vec<F>,
) -> (Vec<Session>, Vec<F>, Asked)
    requires sessions { Ascending office.now 0 sessions.items }
    requires ready { AllAt F.stands_at Stage.Ready feeds.items }
    requires counts { (vec_len feeds ≡ vec_len sessions) × (back.items ≡ []) × (fed.items ≡ []) }
    requires room { (vec_len sessions ≤ vec_capacity back) × (vec_len sessions ≤ vec_capacity fed) }
    ensures sessions { Returned office.now sessions.items result.0.items }
    ensures counts { (vec_len result.0 ≡ vec_len sessions) × (vec_len result.1 ≡ vec_len sessions) }
    ensures room { (vec_capacity back ≤ vec_capacity result.0) × (vec_capacity fed ≤ vec_capacity result.1) }
    ensures done { result.2 ≡ Asked.ToTheEnd → AllAt F.stands_at Stage.Done result.1.items }
    ensures served { AllServed F.gives F.gives_ahead F.hears F.stops office.now sessions.items feeds.items result.2
        result.0.items result.1.items }
{
    let Some(session) = pop_session(office, &mut sessions) else {
        return (back, fed, Asked::ToTheEnd);
    };
    let Some(feed) = pop_feed(&mut feeds) else {
        unreachable!()
    };
    let left_alone = AtomicBool::new(false);
    let flag = &left_alone;
    thread::scope(
        thread::scope_env(),
        rt,
        |scope| -> (Vec<Session>, Vec<F>, Asked)
            requires { IsSync R.row × IsOf office.now session × Ascending office.now 0 sessions.items
                × (F.stands_at feed ≡ Stage.Ready) × AllAt F.stands_at Stage.Ready feeds.items
                × (vec_len feeds ≡ vec_len sessions) × (back.items ≡ []) × (fed.items ≡ [])
                × (vec_len sessions < vec_capacity back) × (vec_len sessions < vec_capacity fed) }
            ensures sessions { Returned office.entry.now (sessions.items ++ session ∷ []) result.0.items }
            ensures counts { (vec_len result.0 ≡ vec_len sessions + 1) × (vec_len result.1 ≡ vec_len sessions + 1) }
            ensures room { (vec_capacity back ≤ vec_capacity result.0) × (vec_capacity fed ≤ vec_capacity result.1) }
            ensures done { result.2 ≡ Asked.ToTheEnd → AllAt F.stands_at Stage.Done result.1.items }
            ensures served { AllServed F.gives F.gives_ahead F.hears F.stops office.entry.now
                (sessions.items ++ session ∷ []) (feeds.items ++ feed ∷ []) result.2 result.0.items result.1.items }
        {
            let back_as = Back(office, Snapshot::of(&session), Snapshot::of(&feed));
            match scope.spawn_with(back_as, move || {
                attend_unless(rt, alloc, flag, office, session, feed)
            }) {
                Ok(handle) => {
                    let (back, fed, asked) = attend_all(
                        rt, alloc, office, sessions, feeds, back, fed,
                    );
                    let last = handle.join(rt);
                    put_last(back, fed, asked, last)
                }
                Err(refused) => {
                    flag.store(true, Ordering::SeqCst);
                    let last = (refused.value)();
                    let (back, fed, asked) = attend_all(
                        rt, alloc, office, sessions, feeds, back, fed,
                    );
                    put_last(back, fed, asked, last)
                }
            }
        },
    )
}

/// Room for so many sessions and feeds that come back.
fn make_room<F>(alloc: Global, n: usize) -> Result<(Vec<Session>, Vec<F>), AllocError>
    ensures none { IfOk result (λ r. (r.0.items ≡ []) × (r.1.items ≡ [])) }
    ensures room { IfOk result (λ r. (n ≤ vec_capacity r.0) × (n ≤ vec_capacity r.1)) }
{
    let back = Vec::with_capacity(alloc, n)?;
    let fed = Vec::with_capacity(alloc, n)?;
    Ok((back, fed))
}

/// Asks all feeds in the office that was opened for them, and closes it.
#[tactic(auto, using(crate::proofs::RunSteps::run_of_feeds))]
fn run_open<R: Threads + Wait + Sync, F: Feed + Send + Drop>(
    rt: &R,
    alloc: Global,
    opened: (Office, Vec<Session>),
    feeds: Vec<F>,
    back: Vec<Session>,
    fed: Vec<F>,
) -> (Monitor, Vec<F>, Asked)
    requires sessions { Ascending opened.0 0 opened.1.items }
    requires newcomers { opened.1.items ≡ newcomers opened.0 opened.0.charter.count }
    requires lasts { opened.0.charter.lasts ≡ true }
    requires ready { AllAt F.stands_at Stage.Ready feeds.items }
    requires counts { (vec_len feeds ≡ vec_len opened.1) × (vec_len opened.1 ≡ opened.0.charter.count)
        × (back.items ≡ []) × (fed.items ≡ []) }
    requires room { (vec_len feeds ≤ vec_capacity back) × (vec_len feeds ≤ vec_capacity fed) }
    ensures grew { Grew (begun opened.0.charter) (base opened.0.charter) opened.0.charter.forgotten
        opened.0.charter.count result.0 }
    ensures count { vec_len result.1 ≡ vec_len feeds }
    ensures done { result.2 ≡ Asked.ToTheEnd → AllAt F.stands_at Stage.Done result.1.items }
    ensures fed { result.2 ≡ Asked.ToTheEnd
        → AllFed F.gives F.gives_ahead F.hears (begun opened.0.charter) (base opened.0.charter)
        (news opened.0.charter (journal_of result.0)) 0 feeds.items result.1.items }
    ensures told { AllTold F.gives F.gives_ahead F.hears F.stops result.2 (begun opened.0.charter)
        (base opened.0.charter) (news opened.0.charter (journal_of result.0)) 0 feeds.items result.1.items }
{
    let (office, sessions) = opened;
    let (back, fed, asked) = attend_all(rt, alloc, &office, sessions, feeds, back, fed);
    match office.close(back) {
        Ok(monitor) => (monitor, fed, asked),
        Err(_) => unreachable!(),
    }
}

/// How the run ended.
fn ended<F: Feed>(left: (Monitor, Vec<F>, Asked)) -> Result<RunDone<F>, RunFault<F>>
    ensures done { IfOk result (λ run. left.2 ≡ Asked.ToTheEnd) }
    ensures ok { IfOk result (λ run. (run.monitor ≡ left.0) × (run.feeds ≡ left.1)) }
    ensures err { IfErr result (λ fault. (fault.monitor ≡ left.0) × (fault.feeds ≡ left.1)) }
    ensures kind { IfErr result (λ fault. (left.2 ≡ worst_of fault.kind) × (fault.kind ≢ RunFaultKind.BadCount)) }
{
    let (monitor, feeds, asked) = left;
    match asked {
        Asked::ToTheEnd => Ok(RunDone { monitor, feeds }),
        Asked::UntilRefused => Err(RunFault {
            kind: RunFaultKind::Memory,
            monitor,
            feeds,
        }),
        Asked::NotAtAll => Err(RunFault {
            kind: RunFaultKind::Thread,
            monitor,
            feeds,
        }),
    }
}

/// Opens the monitor to as many sessions as there are feeds, asks for what each feed gives in a thread of its own, and
/// closes: feed k is asked as session k. It waits for the threads. Sessions that come too late at the gate back off so.
///
/// # Errors
/// `BadCount` where there isn't one feed, to [`MAX_SESSIONS`] feeds; the monitor and the feeds are then as they were
/// handed in. Else `Memory` where an allocation failed, also in a session's request: that feed is told so, and the
/// others run on. Else `Thread` where a thread couldn't be started: its feed is asked nothing, and the others run on.
#[tactic(auto, using(crate::proofs::RunSteps::no_run))]
pub fn run_sessions<R: Threads + Wait + Sync, F: Feed + Send + Drop>(
    rt: &R,
    alloc: Global,
    monitor: Monitor,
    feeds: Vec<F>,
    backoff: Backoff,
) -> Result<RunDone<F>, RunFault<F>>
    requires { AllAt F.stands_at Stage.Ready feeds.items }
    ensures done { IfOk result (λ run. AllAt F.stands_at Stage.Done run.feeds.items) }
    ensures many { OnOk result (IsTrue (is_count (vec_len feeds))) }
    ensures ok { IfOk result
        (λ run. Grew monitor.start monitor.entries monitor.forgotten (vec_len feeds) run.monitor) }
    ensures err { IfErr result
        (λ fault. Grew monitor.start monitor.entries monitor.forgotten (vec_len feeds) fault.monitor) }
    ensures feeds { IfOk result (λ run. vec_len run.feeds ≡ vec_len feeds) }
    ensures fed { IfOk result
        (λ run. AllFed F.gives F.gives_ahead F.hears monitor.start monitor.entries
        (drop (length monitor.entries) run.monitor.entries) 0 feeds.items run.feeds.items) }
    ensures told { IfErr result
        (λ fault. AllTold F.gives F.gives_ahead F.hears F.stops (worst_of fault.kind) monitor.start monitor.entries
        (drop (length monitor.entries) fault.monitor.entries) 0 feeds.items fault.feeds.items) }
    ensures back { IfErr result (λ fault. vec_len fault.feeds ≡ vec_len feeds) }
    ensures kind { IfErr result (λ fault. fault.kind ≡ RunFaultKind.BadCount → is_count (vec_len feeds) ≡ false) }
    ensures bad { is_count (vec_len feeds) ≡ false
        → IfErr result
        (λ fault. (fault.kind ≡ RunFaultKind.BadCount) × (fault.monitor ≡ monitor)
        × (fault.feeds.items ≡ feeds.items)) }
{
    if feeds.is_empty() || feeds.len() > MAX_SESSIONS as usize {
        return Err(RunFault {
            kind: RunFaultKind::BadCount,
            monitor,
            feeds,
        });
    }
    let n = feeds.len() as u16;
    let Ok((back, fed)) = make_room(alloc, feeds.len()) else {
        return Err(RunFault {
            kind: RunFaultKind::Memory,
            monitor,
            feeds,
        });
    };
    match Office::open_as(alloc, monitor, n, true, backoff) {
        Ok(opened) => ended(run_open(rt, alloc, opened, feeds, back, fed)),
        Err(fault) => Err(RunFault {
            kind: RunFaultKind::Memory,
            monitor: fault.monitor,
            feeds,
        }),
    }
}
