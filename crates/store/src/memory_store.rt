ghost use Rattle.std.specs.Prelude.{◌≤◌, length, vec_len};
ghost use Rattle.store.specs.Headers.{headers_in};
ghost use Rattle.store.specs.Layouts.{letters_of};

mod methods;
mod stores;

use crate::headers::Headers;
use crate::layout::Layout;
use crate::packed::Packed;
use crate::slots::Slots;
use std::marker::PhantomData;

/// A store that keeps its sessions in memory that the caller moved in, laid out as `L` says.
#[derive(Drop)]
pub struct MemoryStore<L: Layout> {
    memory: Vec<u32>,
    headers: Headers,
    layout: PhantomData<L>,
    ghost enough: { 128 ≤ vec_len memory },
    ghost kept: { length (headers_in headers) ≤ (L.limits (vec_len memory)).sessions },
    ghost room: { letters_of (headers_in headers) ≤ (L.limits (vec_len memory)).letters },
}

/// A store that cuts its memory into slots of 128 letters, with a session at the start of each
/// slot that is used: as many slots as there are in the first 8192 letters.
pub type SlotStore = MemoryStore<Slots>;

/// A store that lays its sessions end to end in its memory, of which it uses the first 8192 letters,
/// or all where there are fewer.
pub type PackedStore = MemoryStore<Packed>;
