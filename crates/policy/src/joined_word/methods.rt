ghost use Rattle.std.specs.Prelude.{◌≡◌, ℕ, ◌<◌, [], length, take, MatchOption, slice_index, slice_index_or};
ghost use Rattle.policy.specs.Sessions.{letters, sessions, shortest};

use crate::joined_word::JoinedWord;
use crate::session::ends_first;
use crate::tuple::MOST_PLACES;

/// The session of a tuple that ends first, if there is one.
fn first_to_end<'a>(tuple: &[&'a [u32]]) -> Option<&'a [u32]>
    ensures { MatchOption result (shortest (sessions tuple.now) ≡ 0) (λ s. shortest (sessions tuple.now) ≡ length s.now) }
{
    tuple.iter().copied().reduce(ends_first)
}

/// The first letters of a session, as many as there are steps.
fn front<'a>(session: &'a [u32], steps: usize) -> &'a [u32]
    ensures { result.now ≡ take steps session.now }
{
    session.get(..steps).unwrap_or(session)
}

/// The sessions of the first four places, each as far as so many steps go.
fn cut<'a>(tuple: &[&'a [u32]], steps: usize) -> [&'a [u32]; MOST_PLACES]
    ensures four { length result ≡ 4 }
    ensures each { (v : ℕ) → v < 4 → slice_index_or (sessions result) v [] ≡ take steps (slice_index_or (sessions tuple.now) v []) }
{
    std::array::from_fn(|place| front(tuple.get(place).copied().unwrap_or(&[]), steps))
}

/// The letter of a session at a step, and past its end the letter in which no signal is on.
fn letter_at(session: &[u32], step: usize) -> u32
    ensures { result ≡ slice_index session.now step }
{
    session.get(step).copied().unwrap_or(0)
}

/// The letters of four places at a step, place by place. Where a place has no letter there, no
/// signal is on.
pub fn letters_at(places: &[&[u32]; MOST_PLACES], step: usize) -> [u32; MOST_PLACES]
    ensures { result ≡ letters (sessions places.now) step }
{
    places.map(|session| letter_at(session, step))
}

impl<'a> JoinedWord<'a> {
    /// The joined word of a tuple: as many steps as the session that ends first.
    pub fn new(tuple: &[&'a [u32]]) -> JoinedWord<'a>
        ensures steps { result.steps ≡ shortest (sessions tuple.now) }
        ensures four { length result.places ≡ 4 }
        ensures each { (v : ℕ) → v < 4 → slice_index_or (sessions result.places) v [] ≡ take (shortest (sessions tuple.now)) (slice_index_or (sessions tuple.now) v []) }
    {
        let steps = first_to_end(tuple).map_or(0, |session| session.len());
        JoinedWord {
            places: cut(tuple, steps),
            steps,
        }
    }

    /// How many steps there are.
    pub fn len(&self) -> usize
        ensures { result ≡ self.now.steps }
    {
        self.steps
    }

    /// The sessions of the first four places, each as far as there are steps.
    pub fn places(&self) -> [&'a [u32]; MOST_PLACES]
        ensures { result ≡ self.now.places }
    {
        self.places
    }

    /// The letters at a step, place by place. Where a place has no letter there, no signal is on.
    pub fn letters_at(&self, step: usize) -> [u32; MOST_PLACES]
        ensures { result ≡ letters (sessions self.now.places) step }
    {
        letters_at(&self.places, step)
    }
}
