ghost use Rattle.std.specs.Prelude.{◌≡◌, ◌≤◌, length};

mod extend;
mod methods;

use std::alloc::AllocError;

/// A list of at most `N` items, in place. It is the one array here with a count beside it: the library
/// allocates nothing, and a list is copied as plain data.
pub struct FixedVec<T, const N: usize> {
    items: [T; N],
    len: usize,
    ghost whole: { length items ≡ N },
    ghost short: { len ≤ N },
}

/// A list that is full has no room for what was to be appended.
#[derive(Clone, Copy, Debug, PartialEq, Eq)]
pub struct Full;

impl<T: Copy, const N: usize> Copy for FixedVec<T, N> {}

// By hand: a derive is refused at a struct with ghost fields.
impl<T: Copy, const N: usize> Clone for FixedVec<T, N> {
    ghost is_clone = { λ v r. r ≡ v };

    ghost is_infallible = { λ _. Unit {0} };

    fn clone(&self) -> Result<FixedVec<T, N>, AllocError> {
        Ok(*self)
    }
}
