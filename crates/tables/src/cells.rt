ghost use Rattle.std.specs.Prelude.{◌≡◌, ◌-◌, ◌<◌, ◌≤◌, [], ◌∷◌, ◌++◌, length, vec_len, vec_capacity, IfOk};

use crate::span::*;
use std::alloc::{AllocError, Global};

// The cells of a table, in the order of their numbers. They are at most as many as its capacity, and all memory that
// they can ever need is reserved when it is opened.
#[derive(Drop)]
pub(crate) struct Cells<T, const MAX: usize> {
    pub(crate) held: Vec<T>,
    pub(crate) capacity: usize,
    ghost fits: { (vec_len held ≤ capacity) × (capacity ≤ vec_capacity held) × (capacity ≤ MAX) × (MAX < 65536) },
}

impl<T, const MAX: usize> Cells<T, MAX> {
    pub(crate) fn open(heap: Global, capacity: usize) -> Result<Self, AllocError>
        requires capacity { capacity ≤ MAX }
        requires numbered { MAX < 65536 }
        ensures { IfOk result (λ c. (c.held.items ≡ []) × (c.capacity ≡ capacity)) }
    {
        let held = Vec::with_capacity(heap, capacity)?;
        Ok(Cells { held, capacity })
    }

    // How many cells are in use. `as` loses nothing here, which is proved; `try_from` would refuse what never comes.
    pub(crate) fn len(&self) -> u16
        ensures { result ≡ length self.now.held.items }
    {
        self.held.len() as u16
    }

    // How many cells are free.
    pub(crate) fn free(&self) -> usize
        ensures { result ≡ self.now.capacity - length self.now.held.items }
    {
        self.capacity - self.held.len()
    }

    // Puts a cell behind, where one is free.
    pub(crate) fn push(&mut self, cell: T)
        requires { length self.old.held.items < self.old.capacity }
        ensures held { self.new.held.items ≡ self.old.held.items ++ cell ∷ [] }
        ensures capacity { self.new.capacity ≡ self.old.capacity }
        ensures room { vec_capacity self.new.held ≡ vec_capacity self.old.held }
    {
        self.held.push_reserved(cell);
    }
}

impl<T: Copy, const MAX: usize> Cells<T, MAX> {
    // Puts cells behind, where so many are free, and says where they lie. One push for each, since `extend_from_slice`
    // does not promise to stay within the memory that is reserved.
    pub(crate) fn extend(&mut self, cells: &[T]) -> Span
        requires { length cells.now ≤ self.old.capacity - length self.old.held.items }
        ensures held { self.new.held.items ≡ self.old.held.items ++ cells.now }
        ensures capacity { self.new.capacity ≡ self.old.capacity }
        ensures room { vec_capacity self.new.held ≡ vec_capacity self.old.held }
        ensures span { result ≡ record { first = length self.old.held.items; count = length cells.now } }
    {
        let first = self.len();
        for cell in cells {
            self.push(*cell);
        }
        // As in `len`, nothing is lost.
        Span {
            first,
            count: cells.len() as u16,
        }
    }
}
