ghost use Rattle.std.specs.Prelude.{◌≡◌, ℕ, ◌≤◌, List, length, take, vec_items};
ghost use Rattle.std.specs.List.{AllByRecursion};
ghost use Rattle.store.specs.declared.limits.Limits.{Limits};
ghost use Rattle.store.specs.Entries.{Entry, InRange};
ghost use Rattle.store.specs.Headers.{headers_in};
ghost use Rattle.store.specs.Layouts.{by_len, letters_of, room_of, spread};
ghost use Rattle.store.specs.Memory.{Memory};
ghost use Rattle.store.specs.declared.header.Header.{Header};

use crate::headers::Headers;
use crate::limits::Limits;

/// How sessions lie in a store's memory, one after another from its front, and the limits of a store
/// over so many letters. It is for this crate alone to implement.
///
/// Each layout owes the laws that no session reaches into the next one, that its limits are in range
/// and inside the memory, that sessions within them have room there, and that the letters lie as it
/// says.
pub trait Layout {
    ghost pitch: { ℕ → ℕ };

    ghost limits: { ℕ → Limits };

    ghost lie: { List Entry → Memory → Type 0 };

    /// How many letters on from the start of a session of so many the next one starts.
    fn pitch(len: usize) -> usize
        ensures { result ≡ pitch len };

    /// Where the session at a place starts.
    // Two arguments: a place alone means nothing, and headers with one of their places is no plainer.
    fn start(headers: &Headers, place: usize) -> usize
        ensures { result ≡ room_of pitch (take place (headers_in headers.now)) };

    /// The limits of a store over memory of so many letters.
    fn limits(letters: usize) -> Limits
        ensures { result ≡ limits letters };

    ghost wide: { (n : ℕ) → n ≤ 128 → n ≤ pitch n };

    ghost in_range: { (n : ℕ) → 128 ≤ n → InRange (limits n) };

    ghost inside: { (n : ℕ) → (limits n).letters ≤ n };

    ghost room: { (n : ℕ) (hs : List Header) → length hs ≤ (limits n).sessions → letters_of hs ≤ (limits n).letters → room_of pitch hs ≤ (limits n).letters };

    ghost lies: { (hs : List Header) (m : Memory) → AllByRecursion (λ h. h.len ≤ 128) hs → room_of pitch hs ≤ length (vec_items m) → lie (spread (by_len pitch) hs (vec_items m)) m };
}
