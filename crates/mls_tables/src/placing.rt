//! Lists of what is kept by number.
ghost use Rattle.std.specs.Prelude.{◌≡◌, ◌<◌, ◌≤◌, vec_len, vec_capacity};
ghost use Rattle.mls_facts.specs.Places.{placed};

use std::alloc::Allocator;

/// Puts an item at a place of a list: in place of what stands there, or behind all. There is room for one more.
pub fn put_at<T: Copy, A: Allocator>(items: &mut Vec<T, A>, at: usize, x: T)
    requires place { at ≤ vec_len items.old }
    requires room { vec_len items.old < vec_capacity items.old }
    ensures { items.new.items ≡ placed items.old.items at x }
{
    if at == items.len() {
        items.push_reserved(x);
    } else {
        items[at] = x;
    }
}
