//! The items of a list of a fixed room.
ghost use Rattle.std.specs.Prelude.{⊤, ◌≡◌, ◌≤◌, length, take};
ghost use Rattle.fixed.specs.Items.{items_of};

use super::Fixed;
use std::alloc::AllocError;

impl<T: Copy, const N: usize> Fixed<T, N> {
    /// The list of these items, but for those past the first N. The rest of the array holds `unused`.
    pub fn new(items: &[T], unused: T) -> Fixed<T, N>
        ensures front { items_of result ≡ take N items.now }
        ensures whole { length items.now ≤ N → items_of result ≡ items.now }
    {
        let mut list = Fixed {
            array: [unused; N],
            len: 0,
        };
        list.replace(items);
        list
    }

    /// Replaces its items with these, but for those past the first N.
    pub fn replace(&mut self, items: &[T])
        ensures front { items_of self.new ≡ take N items.now }
        ensures whole { length items.now ≤ N → items_of self.new ≡ items.now }
    {
        let len = items.len().min(N);
        let all: &mut [T] = &mut self.array;
        all[0..len].copy_from_slice(&items[0..len]);
        self.len = len;
    }

    /// The items.
    pub fn as_slice(&self) -> &[T]
        ensures items { result.now ≡ items_of self.now }
        ensures fits { length result.now ≤ N }
    {
        let all: &[T] = &self.array;
        &all[0..self.len]
    }
}

// By hand, since no derive covers a generic struct with a ghost field.
impl<T: Copy, const N: usize> Clone for Fixed<T, N> {
    ghost is_clone = { λ x y. y ≡ x };

    ghost is_infallible = { λ _. ⊤ };

    fn clone(&self) -> Result<Self, AllocError> {
        Ok(*self)
    }
}
