ghost use Rattle.std.specs.Prelude.{◌≡◌, ◌+◌, ◌<◌, ◌≤◌, [], ◌∷◌, ◌++◌, length};
ghost use Rattle.std.specs.List.{AllByRecursion, slice_get};
ghost use Rattle.store.specs.Entries.{without_from};
ghost use Rattle.store.specs.Headers.{headers_in};
ghost use Rattle.store.specs.Layouts.{letters_of};
ghost use Rattle.store.specs.Inner.Kept.{has_room};

use crate::header::{Header, UNUSED};
use crate::headers::Headers;
use crate::limits::{LONGEST, Limits};
use fixed_vec::FixedVec;

impl Headers {
    /// No headers.
    pub(crate) fn new() -> Headers
        ensures { headers_in result ≡ [] }
    {
        Headers {
            list: FixedVec::new(UNUSED),
        }
    }

    /// The headers.
    pub(crate) fn as_slice(&self) -> &[Header]
        ensures value { result.now ≡ headers_in self.now }
        ensures bound { length result.now ≤ 64 }
        ensures short { AllByRecursion (λ h. h.len ≤ 128) result.now }
        ensures small { letters_of result.now ≤ 8192 }
    {
        self.list.as_slice()
    }

    /// The header at a place.
    pub(crate) fn get(&self, place: usize) -> Option<Header>
        ensures { result ≡ slice_get (headers_in self.now) place }
    {
        self.as_slice().get(place).copied()
    }

    /// How many sessions are left without those at the places, and how many letters they have.
    // Inlined with its caller: a refusal costs this one pass, and a call beside it would be felt.
    #[inline(always)]
    fn left(&self, places: &[usize]) -> (usize, usize)
        ensures sessions { result.0 ≡ length (without_from 0 places.now (headers_in self.now)) }
        ensures letters { result.1 ≡ letters_of (without_from 0 places.now (headers_in self.now)) }
        ensures few { result.0 ≤ 64 }
        ensures small { result.1 ≤ 8192 }
    {
        let headers = self.as_slice();
        let mut sessions = 0;
        let mut letters = 0;
        for (place, header) in headers.iter().enumerate() {
            if places.contains(&place) {
                continue;
            }
            sessions += 1;
            letters += header.len;
        }
        (sessions, letters)
    }

    /// Whether a session more, of so many letters, is within the limits once those at the places
    /// have left. It builds nothing.
    #[inline(always)]
    pub(crate) fn has_room(&self, places: &[usize], limits: Limits, len: usize) -> bool
        ensures { result ≡ has_room limits (without_from 0 places.now (headers_in self.now)) len }
    {
        let (sessions, letters) = self.left(places);
        len <= LONGEST && sessions + 1 <= limits.sessions && letters + len <= limits.letters
    }

    /// Appends a header.
    #[tactic(auto, using(crate::specs::Laws::short_push))]
    pub(crate) fn push(&mut self, header: Header)
        requires room { length (headers_in self.old) < 64 }
        requires short { header.len ≤ 128 }
        ensures { headers_in self.new ≡ headers_in self.old ++ header ∷ [] }
    {
        self.list.push(header).unwrap();
    }
}
