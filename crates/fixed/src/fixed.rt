//! A list of a fixed room.
ghost use Rattle.std.specs.Prelude.{◌≤◌};

mod items;

/// A list of at most N items, at the front of an array. It can be copied, as the library's `ArrayVec` can't.
#[derive(Copy)]
pub struct Fixed<T, const N: usize> {
    array: [T; N],
    len: usize,
    ghost fits: { len ≤ N },
}
