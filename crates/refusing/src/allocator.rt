//! The allocator: it counts allocations down to the one that it refuses.
use std::alloc::{AllocError, Allocator};
use std::cell::Cell;

/// An allocator that refuses one allocation and passes all others on to the allocator inside. A test lends it, as
/// `&Refusing<Global>`, to what it tests, and asks afterwards whether the refusal was met.
///
/// It counts allocations alone, and nothing is given back to the count by what is freed. The growth of a collection
/// is an allocation too.
#[derive(Drop)]
pub struct Refusing<B: Allocator> {
    inner: B,
    left: Cell<u64>,
}

impl<B: Allocator> Refusing<B> {
    /// An allocator that refuses the allocation of this number, counted from 1; of the number 0 it refuses none, and
    /// counts as refused from the start.
    pub fn new(inner: B, number: u64) -> Refusing<B> {
        Refusing {
            inner,
            left: Cell::new(number),
        }
    }

    /// Whether the allocation of that number was asked for, and so refused.
    pub fn has_refused(&self) -> bool {
        self.left.get() == 0
    }
}

/// Whether the next allocation is the one to refuse. It counts down.
fn counts_down(left: &Cell<u64>) -> bool {
    let number = left.get();
    left.set(number.saturating_sub(1));
    number == 1
}

unsafe impl<B: Allocator> Allocator for Refusing<B> {
    ghost dealloc_token = { λ heap ty ptr. B.dealloc_token heap.inner ty ptr };

    fn allocate(&self, size: usize, align: usize) -> Result<*mut u8, AllocError> {
        if counts_down(&self.left) {
            return Err(AllocError);
        }
        self.inner.allocate(size, align)
    }

    unsafe fn deallocate(&self, ptr: *mut u8, size: usize, align: usize) {
        self.inner.deallocate(ptr, size, align);
    }
}
