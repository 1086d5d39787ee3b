ghost use Rattle.std.specs.Prelude.{◌≡◌, MatchResult};
ghost use Rattle.store.specs.Stores.{Made, Refused, entries_in, memory_in};

use crate::headers::Headers;
use crate::layout::Layout;
use crate::limits::LONGEST;
use crate::memory_store::MemoryStore;
use crate::too_short::TooShort;
use std::marker::PhantomData;

impl<L: Layout> MemoryStore<L> {
    /// A store without entries over the memory. Memory of under 128 letters is refused, and comes
    /// back as it was.
    pub fn new(memory: Vec<u32>) -> Result<MemoryStore<L>, TooShort>
        ensures { MatchResult result (λ s. Made memory s) (λ e. Refused memory e) }
    {
        if memory.len() < LONGEST {
            return Err(TooShort { memory });
        }
        Ok(MemoryStore {
            memory,
            headers: Headers::new(),
            layout: PhantomData,
        })
    }

    /// The store's memory, with its letters as they are.
    pub fn into_memory(self) -> Vec<u32>
        ensures same { result ≡ memory_in self }
        ensures lie { L.lie (entries_in self) result }
    {
        let MemoryStore {
            memory,
            headers: _,
            layout: _,
        } = self;
        memory
    }
}
