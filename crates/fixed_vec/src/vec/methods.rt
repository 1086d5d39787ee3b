ghost use Rattle.std.specs.Prelude.{◌≡◌, ◌<◌, ◌≤◌, [], ◌∷◌, ◌++◌, ◌↔◌, length, IsOk, OnOk, OnErr};
ghost use Rattle.fixed_vec.specs.Items.{items_of};

use crate::vec::{FixedVec, Full};

impl<T: Copy, const N: usize> FixedVec<T, N> {
    /// The empty list. The filler stands in the room that holds no item.
    pub fn new(filler: T) -> FixedVec<T, N>
        ensures { items_of result ≡ [] }
    {
        FixedVec {
            items: [filler; N],
            len: 0,
        }
    }

    /// How many items there are.
    pub fn len(&self) -> usize
        ensures value { result ≡ length (items_of self.now) }
        ensures bound { result ≤ N }
    {
        self.as_slice().len()
    }

    /// The items.
    pub fn as_slice(&self) -> &[T]
        ensures value { result.now ≡ items_of self.now }
        ensures bound { length result.now ≤ N }
    {
        let all = &self.items[..];
        &all[0..self.len]
    }

    /// Appends an item, where the list is not full.
    pub fn push(&mut self, item: T) -> Result<(), Full>
        ensures taken { IsOk result ↔ (length (items_of self.old) < N) }
        ensures ok { OnOk result (items_of self.new ≡ items_of self.old ++ (item ∷ [])) }
        ensures err { OnErr result (self.new ≡ self.old) }
    {
        if self.len >= N {
            return Err(Full);
        }
        self.items[self.len] = item;
        self.len += 1;
        Ok(())
    }
}
