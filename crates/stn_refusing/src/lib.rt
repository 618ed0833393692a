//! For tests: an allocator that refuses the request of a number, devices that fail at the call of a number, and how calls are made
//! again until each has been refused.
#![tactic(auto)]

mod devices;
mod sweep;

pub use crate::devices::{PieceReader, PieceWriter};
pub use crate::sweep::{Outcome, Refused, count_refused};
use std::alloc::{AllocError, Allocator};
use std::cell::Cell;

/// Passes requests for memory on to another allocator, and refuses the one of a number, counted from 1.
pub struct Refusing<B: Allocator> {
    inner: B,
    until: Cell<u64>,
}

impl<B: Allocator> Refusing<B> {
    /// Refuses the request of this number, and none where the number is 0.
    pub fn new(inner: B, number: u64) -> Refusing<B> {
        Refusing {
            inner,
            until: Cell::new(number),
        }
    }

    /// Refuses the request of this number, counted from now on, and none where the number is 0.
    pub fn refuse(&self, number: u64) {
        self.until.set(number);
    }

    /// Whether the request to be refused is still to come.
    pub fn is_waiting(&self) -> bool {
        self.until.get() != 0
    }
}

impl<B: Allocator> Drop for Refusing<B> {
    fn drop(self) {
        let Self { inner: _, until: _ } = self;
    }
}

// Whether this request is the one to be refused. It counts the request.
fn refuses(until: &Cell<u64>) -> bool {
    let number = until.get();
    until.set(number.saturating_sub(1));
    number == 1
}

unsafe impl<B: Allocator> Allocator for Refusing<B> {
    ghost dealloc_token = { λ heap ty ptr. B.dealloc_token heap.inner ty ptr };

    fn allocate(&self, size: usize, align: usize) -> Result<*mut u8, AllocError> {
        if refuses(&self.until) {
            return Err(AllocError);
        }
        self.inner.allocate(size, align)
    }

    unsafe fn deallocate(&self, ptr: *mut u8, size: usize, align: usize) {
        self.inner.deallocate(ptr, size, align);
    }
}
