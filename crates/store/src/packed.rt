ghost use Rattle.std.proofs.Common.{rules};
ghost use Rattle.store.specs.Layouts.{LieEndToEnd};
ghost use Rattle.store.specs.Limits.{packed_limits};
ghost use Rattle.store.specs.Laws.{packed_wide, packed_in_range, packed_room, lie_end_to_end};

use crate::headers::Headers;
use crate::layout::Layout;
use crate::limits::{Limits, MOST_LETTERS, MOST_SESSIONS};

/// The sessions lie end to end from the front of the memory.
pub struct Packed;

impl Layout for Packed {
    ghost pitch = { λ n. n };

    ghost limits = { packed_limits };

    ghost lie = { LieEndToEnd };

    ghost wide = { packed_wide };

    ghost in_range = { packed_in_range };

    ghost inside = { λ n. Prim.search rules };

    ghost room = { packed_room };

    ghost lies = { lie_end_to_end };

    fn pitch(len: usize) -> usize {
        len
    }

    fn start(headers: &Headers, place: usize) -> usize {
        let headers = headers.as_slice();
        headers.iter().take(place).map(|header| header.len).sum()
    }

    fn limits(letters: usize) -> Limits {
        Limits {
            sessions: MOST_SESSIONS,
            letters: letters.min(MOST_LETTERS),
        }
    }
}
