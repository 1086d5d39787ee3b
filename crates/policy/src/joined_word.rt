ghost use Rattle.std.specs.Prelude.{◌≡◌, ℕ, ◌<◌, ◌≤◌, [], length, slice_index_or};
ghost use Rattle.policy.specs.Sessions.{sessions};

mod methods;

use crate::tuple::MOST_PLACES;
pub use methods::letters_at;

/// The joined word of a tuple: the sessions of its first four places, each as far as the shortest
/// of the tuple goes, and how many steps that is. A place that the tuple lacks has no letters.
#[derive(Drop)]
pub struct JoinedWord<'a> {
    places: [&'a [u32]; MOST_PLACES],
    steps: usize,
    ghost four: { length places ≡ 4 },
    ghost within: { (v : ℕ) → v < 4 → length (slice_index_or (sessions places) v []) ≤ steps },
}
