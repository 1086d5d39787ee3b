//! Plays long random lists of calls on both stores beside a plain model, and counts where an
//! answer, an entry, a buffer or the memory differs from what the model says.
#![tactic(auto)]

ghost use Rattle.std.specs.Prelude.{◌≡◌, MatchResult, vec_len};
ghost use Rattle.store.specs.Limits.{slot_limits, packed_limits};
ghost use Rattle.store.specs.Stores.{limits_in, Refused};

mod model;
mod play;
mod random;
mod tally;

use model::Model;
use play::Play;
use std::alloc::{AllocError, Global};
use std::io;
use store::{Layout, MemoryStore, PackedStore, SlotStore, TooShort};

/// How many calls are played on each store.
const CALLS: u32 = 4000;

/// What stands at an index of the memory before a store is made over it.
fn first_letter(index: usize) -> u32 {
    (index % 1000) as u32
}

/// Memory of so many letters.
fn memory(heap: Global, len: usize) -> Result<Vec<u32>, AllocError> {
    (0..len).map(first_letter).collect(heap)
}

/// Whether the memory has so many letters, and those from a place on are as they were at first.
fn memory_alike(memory: &[u32], len: usize, from: usize) -> bool {
    memory.len() == len
        && memory
            .iter()
            .enumerate()
            .skip(from)
            .all(|(i, letter)| *letter == first_letter(i))
}

/// The slot store over the memory. The clause is what the name promises a caller.
fn slot_store(memory: Vec<u32>) -> Result<SlotStore, TooShort>
    ensures { MatchResult result (λ s. limits_in s ≡ slot_limits (vec_len memory)) (λ e. Refused memory e) }
{
    SlotStore::new(memory)
}

/// The packed store over the memory. The clause is what the name promises a caller.
fn packed_store(memory: Vec<u32>) -> Result<PackedStore, TooShort>
    ensures { MatchResult result (λ s. limits_in s ≡ packed_limits (vec_len memory)) (λ e. Refused memory e) }
{
    PackedStore::new(memory)
}

/// Plays on a store that was made over so many letters, or not, which should keep at most so many
/// sessions with at most so many letters in all, and prints what came of it.
fn play_over<L: Layout>(
    rt: &HostRuntime,
    name: &str,
    made: Result<MemoryStore<L>, TooShort>,
    len: usize,
    sessions: usize,
    letters: usize,
) -> io::Result<()> {
    let heap = rt.alloc();
    match made {
        Err(refusal) => {
            let number = refusal.number();
            let memory = if memory_alike(&refusal.memory, len, 0) {
                "as it was"
            } else {
                "wrong"
            };
            println!(rt; "{name} store over {len} letters: refused with {number}, memory {memory}")
        }
        Ok(store) => {
            let mut play = Play::new(store, Model::new(heap, sessions, letters), heap);
            play.run(CALLS)?;
            let (store, tally) = play.finish();
            let memory = if memory_alike(&store.into_memory(), len, letters) {
                "as it should be"
            } else {
                "wrong"
            };
            println!(rt; "{name} store over {len} letters: {tally}, memory {memory}")
        }
    }
}

fn main(rt: HostRuntime) -> io::Result<()> {
    let heap = rt.alloc();
    for len in [0, 127, 128, 129, 200, 256, 1000, 8191, 8192, 9000] {
        let slots = len.min(8192) / 128;
        let made = slot_store(memory(heap, len)?);
        play_over(&rt, "slot", made, len, slots, 128 * slots)?;
        let made = packed_store(memory(heap, len)?);
        play_over(&rt, "packed", made, len, 64, len.min(8192))?;
    }
    Ok(())
}
