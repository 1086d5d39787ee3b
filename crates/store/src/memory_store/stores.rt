ghost use Rattle.std.proofs.Common.{rules};
ghost use Rattle.std.specs.Prelude.{◌≡◌, [], vec_items, vec_len, if◌then◌else◌, is_ok, OnErr};
ghost use Rattle.store.specs.Entries.{exchanged, takes, entry_of};
ghost use Rattle.store.specs.Headers.{headers_in};
ghost use Rattle.store.specs.Memory.{MemoryKept};
ghost use Rattle.store.specs.Stores.{entries_in, memory_in, limits_in};
ghost use Rattle.store.specs.Laws.{short_true, spread_within};

use crate::compact::compact;
use crate::header::Header;
use crate::headers::Headers;
use crate::layout::Layout;
use crate::memory::write_at;
use crate::memory_store::MemoryStore;
use crate::session::{NoRoom, Session};
use crate::store::Store;

impl<L: Layout> Store for MemoryStore<L> {
    ghost entries = { entries_in };

    ghost limits = { limits_in };

    ghost within = { λ s. let hs = headers_in s.headers in spread_within L.pitch L.wide (limits_in s) (L.in_range (vec_len s.memory) s.enough) hs (vec_items s.memory) (short_true hs s.headers.short) s.kept s.room (Prim.search (rules, L.room, L.inside)) };

    fn entry(&self, place: usize) -> Option<(u32, usize)> {
        let header = self.headers.get(place)?;
        Some((header.number, header.len))
    }

    fn letters(&self, place: usize, buffer: &mut [u32]) -> Option<usize> {
        let len = self.headers.get(place)?.len;
        if len > buffer.len() {
            return None;
        }
        let from = L::start(&self.headers, place);
        write_at(buffer, 0, &self.memory.as_slice()[from..from + len]);
        Some(len)
    }

    fn exchange(&mut self, places: &[usize], session: Session) -> Result<(), NoRoom>
        ensures test { is_ok result ≡ takes (limits_in self.old) places.now (entries_in self.old) (entry_of session.entry) }
        ensures after { entries_in self.new ≡ (if is_ok result then exchanged places.now (entries_in self.old) (entry_of session.entry) else entries_in self.old) }
        ensures stays { limits_in self.new ≡ limits_in self.old }
        ensures refused { OnErr result (self.new ≡ self.old) }
        ensures memory { MemoryKept (limits_in self.old).letters (memory_in self.old) (memory_in self.new) }
    {
        let limits = L::limits(self.memory.len());
        if !self.headers.has_room(places, limits, session.letters.len()) {
            return Err(NoRoom);
        }
        let mut stay = Headers::new();
        let memory = self.memory.as_mut_slice();
        let end = compact::<L>(memory, &self.headers, places, &mut stay);
        write_at(self.memory.as_mut_slice(), end, session.letters);
        stay.push(Header {
            number: session.number,
            len: session.letters.len(),
        });
        self.headers = stay;
        Ok(())
    }

    fn clear(&mut self)
        ensures empty { entries_in self.new ≡ [] }
        ensures stays { limits_in self.new ≡ limits_in self.old }
        ensures memory { memory_in self.new ≡ memory_in self.old }
    {
        self.headers = Headers::new();
    }
}
