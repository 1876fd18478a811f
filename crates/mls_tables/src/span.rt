//! Where a list lies in memory that holds several, and what becomes of the memory where an item joins or leaves it.
ghost use Rattle.std.specs.Prelude.{◌≡◌, ◌+◌, ◌-◌, ◌*◌, ◌<◌, ◌≤◌, length, take, IfOk, OnErr, vec_len};
ghost use Rattle.std.specs.List.{insert};
ghost use Rattle.mls_tables.specs.declared.limits.TheConstants.{MAX_OBJECTS};
ghost use Rattle.mls_tables.specs.Lists.{FindsRoom, list_at};
ghost use Rattle.mls_tables.specs.Rows.{cut};

use std::alloc::{AllocError, Allocator};

/// Where a list lies: its first place, how many items it has, and how many it has room for.
#[derive(Clone, Copy)]
pub struct Span {
    pub start: usize,
    pub len: usize,
    pub room: usize,
}

/// A stretch with room for one more: the list's own, or a new one at the end that the list is copied to. The item fills
/// the room.
///
/// # Errors
/// Where allocation fails. The memory is then unchanged.
pub(crate) fn roomy<T: Copy, A: Allocator>(
    store: &mut Vec<T, A>,
    span: Span,
    x: T,
) -> Result<Span, AllocError>
    requires short { span.len ≤ span.room }
    requires within { span.start + span.room ≤ vec_len store.old }
    requires few { span.len ≤ MAX_OBJECTS }
    ensures ok { IfOk result (λ found. FindsRoom store.old.items store.new.items span found) }
    ensures err { OnErr result (store.new.items ≡ store.old.items) }
{
    if span.len < span.room {
        return Ok(span);
    }
    let start = store.len();
    let room = 2 * span.len + 1;
    store.resize(start + room, x)?;
    store.copy_within(span.start..span.start + span.len, start);
    Ok(Span {
        start,
        len: span.len,
        room,
    })
}

/// Puts an item in at a place, where the last item is room to spare.
fn put_in<T: Copy>(items: &mut [T], k: usize, x: T)
    requires { k < length items.old }
    ensures { items.new ≡ insert (take (length items.old - 1) items.old) k x }
{
    let last = items.len() - 1;
    items[last] = x;
    items[k..].rotate_right(1);
}

/// Takes so many items at a place out; as many places at the end are room to spare then. Of one
/// item a rotation is the faster move.
fn take_out<T: Copy>(items: &mut [T], k: usize, count: usize)
    requires { k + count ≤ length items.old }
    ensures { take (length items.old - count) items.new ≡ cut items.old k count }
{
    if count == 1 {
        items[k..].rotate_left(1);
        return;
    }
    items.copy_within(k + count.., k);
}

/// Puts an item in a list at a place, and returns where the longer list lies.
pub(crate) fn widen<T: Copy>(store: &mut [T], span: Span, k: usize, x: T) -> Span
    requires place { k ≤ span.len }
    requires room { span.start + span.len < length store.old }
    ensures longer { result ≡ record span { len = span.len + 1 } }
    ensures list { list_at store.new result ≡ insert (list_at store.old span) k x }
    // A list that lies elsewhere stays.
    ensures before { (t : Span) → t.start + t.len ≤ span.start → list_at store.new t ≡ list_at store.old t }
    ensures behind { (t : Span) → span.start + span.len < t.start → list_at store.new t ≡ list_at store.old t }
{
    put_in(&mut store[span.start..span.start + span.len + 1], k, x);
    Span {
        start: span.start,
        len: span.len + 1,
        room: span.room,
    }
}

/// Takes so many items at a place out of a list, and returns where the shorter list lies.
pub(crate) fn shorten<T: Copy>(store: &mut [T], span: Span, k: usize, count: usize) -> Span
    requires place { k + count ≤ span.len }
    requires within { span.start + span.len ≤ length store.old }
    ensures shorter { result ≡ record span { len = span.len - count } }
    ensures list { list_at store.new result ≡ cut (list_at store.old span) k count }
    // A list that lies elsewhere stays.
    ensures before { (t : Span) → t.start + t.len ≤ span.start → list_at store.new t ≡ list_at store.old t }
    ensures behind { (t : Span) → span.start + span.len ≤ t.start → list_at store.new t ≡ list_at store.old t }
{
    take_out(&mut store[span.start..span.start + span.len], k, count);
    Span {
        start: span.start,
        len: span.len - count,
        room: span.room,
    }
}
