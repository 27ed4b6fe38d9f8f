//! For tests alone: an allocator that counts the growths it is asked for and refuses the one whose number it is given.

use std::alloc::{AllocError, Allocator};
use std::cell::Cell;

/// Passes each call on, but for the one that is refused.
pub struct Refusing<B: Allocator + Copy> {
    inner: B,
    calls: Cell<u64>,
}

impl<B: Allocator + Copy> Refusing<B> {
    /// Refuses the growth with that number, counted from 1, or none at 0.
    pub fn new(inner: B, refuses: u64) -> Refusing<B> {
        Refusing {
            inner,
            calls: Cell::new(refuses),
        }
    }

    /// How many growths are still to be asked for until one is refused; past it the count wraps.
    pub fn left(&self) -> u64 {
        self.calls.get()
    }
}

impl<B: Allocator + Copy> Drop for Refusing<B> {
    fn drop(self) {
        let Self { inner: _, calls: _ } = self;
    }
}

fn pass_by(_calls: &Cell<u64>) {}

fn is_refused(calls: &Cell<u64>) -> bool {
    let left = calls.get();
    calls.set(left.wrapping_sub(1));
    left == 1
}

unsafe impl<B: Allocator + Copy> Allocator for Refusing<B> {
    ghost dealloc_token = { λ heap ty ptr. B.dealloc_token heap.inner ty ptr };

    fn allocate(&self, size: usize, align: usize) -> Result<*mut u8, AllocError> {
        if is_refused(&self.calls) {
            return Err(AllocError);
        }
        self.inner.allocate(size, align)
    }

    unsafe fn deallocate(&self, ptr: *mut u8, size: usize, align: usize) {
        pass_by(&self.calls);
        self.inner.deallocate(ptr, size, align);
    }
}
