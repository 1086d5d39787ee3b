ghost use Rattle.std.proofs.Common.{rules};
ghost use Rattle.store.specs.Layouts.{LieInSlots};
ghost use Rattle.store.specs.Limits.{slot_limits};
ghost use Rattle.store.specs.Laws.{slots_in_range, slots_room, lie_in_slots};

use crate::headers::Headers;
use crate::layout::Layout;
use crate::limits::{LONGEST, Limits, MOST_LETTERS};

/// The memory is cut into slots of 128 letters, with a session at the start of each slot that is
/// used.
pub struct Slots;

impl Layout for Slots {
    ghost pitch = { λ n. 128 };

    ghost limits = { slot_limits };

    ghost lie = { LieInSlots };

    ghost wide = { λ n le. le };

    ghost in_range = { slots_in_range };

    ghost inside = { λ n. Prim.search rules };

    ghost room = { slots_room };

    ghost lies = { lie_in_slots };

    fn pitch(_len: usize) -> usize {
        LONGEST
    }

    #[tactic(auto, using(crate::specs::Laws::slots_before))]
    fn start(headers: &Headers, place: usize) -> usize {
        place.min(headers.as_slice().len()) * LONGEST
    }

    fn limits(letters: usize) -> Limits {
        let slots = letters.min(MOST_LETTERS) / LONGEST;
        Limits {
            sessions: slots,
            letters: LONGEST * slots,
        }
    }
}
