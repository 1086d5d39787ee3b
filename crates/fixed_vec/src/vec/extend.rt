ghost use Rattle.std.specs.Prelude.{◌≡◌, ◌+◌, ◌≤◌, ◌++◌, ◌↔◌, length, IsOk, OnOk, OnErr};
ghost use Rattle.fixed_vec.specs.Items.{items_of};

use crate::vec::{FixedVec, Full};

impl<T: Copy, const N: usize> FixedVec<T, N> {
    /// Appends all of the items, or none where there is no room for all.
    pub fn extend(&mut self, items: &[T]) -> Result<(), Full>
        ensures taken { IsOk result ↔ (length (items_of self.old) + length items.now ≤ N) }
        ensures ok { OnOk result (items_of self.new ≡ items_of self.old ++ items.now) }
        ensures err { OnErr result (self.new ≡ self.old) }
    {
        if items.len() > N - self.len {
            return Err(Full);
        }
        // Item by item: a copy as a whole would have the archive for C need `memmove` from outside.
        for item in items {
            self.push(*item).unwrap();
        }
        Ok(())
    }
}
