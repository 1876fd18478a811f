//! Why an open monitor would answer a request as it would.
ghost use Rattle.std.specs.Prelude.{◌≡◌, ◌≢◌, ◌++◌, ◌≤◌, ◌⊎◌, length, map, drop, nat_lt, is_some, IfOk, IfSome, Some};
ghost use Rattle.std.specs.Prelude.{if◌then◌else◌};
ghost use Rattle.mls_rules.specs.Rules.{is_defined};
ghost use Rattle.mls_c.specs.Conditions.{numbers_of_condition, numbers_of_remedy, AreConditions, HasActionRemedy};
ghost use Rattle.mls_c.specs.Conditions.{Explains, ExplainsIn, CountsConditions, condition_count};
ghost use Rattle.mls_c.specs.Conditions.{DefinedStatus, ExplainStatus};
ghost use Rattle.mls_c.specs.Requests.{request_of};
ghost use Rattle.mls_c.specs.declared.status.TheConstants.{OK, ERANGE};

use crate::condition_numbers::ConditionNumbers;
use crate::handle::Mls;
use crate::label::LabelNumbers;
use crate::opened::Opened;
use crate::request::RequestNumbers;
use crate::status::{ECLOSED, EINVAL, ENOMEM, ENOTFOUND, ERANGE, OK};
use mls_explain::{Condition, conditions, remedy, unknowns};
use mls_labels::SecLabel;
use mls_requests::{Action, Request};
use mls_state::State;
use std::alloc::{AllocError, Global};

/// The remedy of a get: 1 and the label where there is one, else 0 and the lowest label.
#[repr(C)]
#[derive(Clone, Copy)]
pub struct RemedyNumbers {
    pub there: u8,
    pub label: LabelNumbers,
}

impl RemedyNumbers {
    /// A remedy in numbers, or that there is none.
    pub(crate) fn of(level: Option<SecLabel>) -> RemedyNumbers
        ensures { result ≡ numbers_of_remedy level }
    {
        match level {
            Some(level) => RemedyNumbers {
                there: 1,
                label: LabelNumbers::of(level.label()),
            },
            None => RemedyNumbers {
                there: 0,
                label: LabelNumbers::none(),
            },
        }
    }
}

/// The remedy of a request, where it is a get.
pub(crate) fn remedy_of(state: &State, request: &Request) -> Option<SecLabel>
    ensures { HasActionRemedy state.now request.now.subject request.now.action result }
{
    match request.action {
        Action::Get(x, o) => remedy(state, request.subject, o, x),
        Action::Release(_, _)
        | Action::Give(_, _, _)
        | Action::Rescind(_, _, _)
        | Action::Create(_, _, _)
        | Action::Delete(_)
        | Action::SubjectLevel(_)
        | Action::ObjectLevel(_, _) => None,
    }
}

/// Whether all that a request names is there.
fn is_defined(alloc: Global, state: &State, request: &Request) -> Result<bool, AllocError>
    ensures { IfOk result (λ defined. defined ≡ is_defined state.now request.now) }
{
    let unknown = unknowns(alloc, state, request)?;
    Ok(unknown.is_empty())
}

/// The conditions of a request, where all that it names is there.
pub(crate) fn conditions_of(
    alloc: Global,
    state: &State,
    request: &Request,
) -> Result<Option<Vec<Condition>>, AllocError>
    ensures there { IfOk result (λ found. is_some found ≡ is_defined state.now request.now) }
    ensures all { IfOk result (λ found. IfSome found (λ all. AreConditions state.now request.now all.items)) }
{
    if !is_defined(alloc, state, request)? {
        return Ok(None);
    }
    let all = conditions(alloc, state, request)?;
    Ok(Some(all))
}

/// Puts conditions at the front of rows that have room for them.
pub(crate) fn put_rows(all: &[Condition], rows: &mut [ConditionNumbers])
    requires { length all.now ≤ length rows.old }
    ensures { rows.new ≡ map numbers_of_condition all.now ++ drop (length all.now) rows.old }
{
    for (k, condition) in all.iter().enumerate() {
        rows[k] = ConditionNumbers::of(condition);
    }
}

/// Explains a request by its conditions.
fn explain_by(
    state: &State,
    request: &Request,
    all: &[Condition],
    rows: &mut [ConditionNumbers],
    count: &mut usize,
    level: &mut RemedyNumbers,
) -> i32
    requires { AreConditions state.now request.now all.now }
    ensures status { result
        ≡ (if nat_lt (length rows.old) (condition_count state.now request.now) then ERANGE else OK) }
    ensures explained { result ≡ OK → Explains state.now request.now rows.old rows.new count.new level.new }
    ensures short { result ≢ OK → rows.new ≡ rows.old }
    ensures told { count.new ≡ condition_count state.now request.now }
    ensures silent { result ≢ OK → level.new ≡ level.old }
{
    *count = all.len();
    if rows.len() < all.len() {
        return ERANGE;
    }
    put_rows(all, rows);
    *level = RemedyNumbers::of(remedy_of(state, request));
    OK
}

/// Explains a request.
fn explain(
    alloc: Global,
    state: &State,
    request: &Request,
    rows: &mut [ConditionNumbers],
    count: &mut usize,
    level: &mut RemedyNumbers,
) -> i32
    ensures status { DefinedStatus state.now request.now (length rows.old) result }
    ensures explained { result ≡ OK → Explains state.now request.now rows.old rows.new count.new level.new }
    ensures short { result ≢ OK → rows.new ≡ rows.old }
    ensures told { (result ≡ OK) ⊎ (result ≡ ERANGE) → count.new ≡ condition_count state.now request.now }
    ensures silent { result ≢ OK → result ≢ ERANGE → count.new ≡ count.old }
    ensures same { result ≢ OK → level.new ≡ level.old }
{
    match conditions_of(alloc, state, request) {
        Ok(Some(all)) => explain_by(state, request, &all, rows, count, level),
        Ok(None) => ENOTFOUND,
        Err(_) => ENOMEM,
    }
}

/// Explains the request of numbers.
fn explain_numbers(
    opened: &Opened,
    alloc: Global,
    asked: &RequestNumbers,
    rows: &mut [ConditionNumbers],
    count: &mut usize,
    level: &mut RemedyNumbers,
) -> i32
    ensures status { ExplainStatus (Some opened.now) (request_of asked.now) (length rows.old) result }
    ensures explained { result ≡ OK
        → ExplainsIn (Some opened.now) (request_of asked.now) rows.old rows.new count.new level.new }
    ensures short { result ≢ OK → rows.new ≡ rows.old }
    ensures told { (result ≡ OK) ⊎ (result ≡ ERANGE)
        → CountsConditions (Some opened.now) (request_of asked.now) count.new }
    ensures silent { result ≢ OK → result ≢ ERANGE → count.new ≡ count.old }
    ensures same { result ≢ OK → level.new ≡ level.old }
{
    match asked.request() {
        Some(request) => explain(alloc, opened.state(), &request, rows, count, level),
        None => EINVAL,
    }
}

/// The conditions of a request, in the order of its rule, with what each compares, and the remedy of a get: the least
/// current label that the subject can take after which it is granted. How many conditions there are is told where the
/// rows are too few, too. Nothing changes.
#[unsafe(no_mangle)]
pub extern "C" fn mls_explain_rows(
    m: &mut Mls,
    alloc: Global,
    asked: &RequestNumbers,
    rows: &mut [ConditionNumbers],
    count: &mut usize,
    level: &mut RemedyNumbers,
) -> i32
    ensures status { ExplainStatus m.old.monitor.value (request_of asked.now) (length rows.old) result }
    ensures explained { result ≡ OK
        → ExplainsIn m.old.monitor.value (request_of asked.now) rows.old rows.new count.new level.new }
    ensures short { result ≢ OK → rows.new ≡ rows.old }
    ensures told { (result ≡ OK) ⊎ (result ≡ ERANGE)
        → CountsConditions m.old.monitor.value (request_of asked.now) count.new }
    ensures silent { result ≢ OK → result ≢ ERANGE → count.new ≡ count.old }
    ensures remedy { result ≢ OK → level.new ≡ level.old }
    ensures same { m.new.monitor.value ≡ m.old.monitor.value }
{
    if m.held == 0 {
        return ECLOSED;
    }
    let opened = m.monitor.lend();
    explain_numbers(opened, alloc, asked, rows, count, level)
}
