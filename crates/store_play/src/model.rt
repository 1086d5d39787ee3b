use std::alloc::{AllocError, Global};
use store::{NoRoom, Session};

/// A kept session, as the model has it.
#[derive(Drop)]
struct Kept {
    number: u32,
    letters: Vec<u32>,
}

impl Kept {
    /// A copy of the session.
    fn new(heap: Global, number: u32, letters: &[u32]) -> Result<Kept, AllocError> {
        Ok(Kept {
            number,
            letters: Vec::from_slice(heap, letters)?,
        })
    }
}

/// What a store should hold: a list of sessions, written down anew at each exchange.
#[derive(Drop)]
pub(crate) struct Model {
    most_sessions: usize,
    most_letters: usize,
    kept: Vec<Kept>,
}

/// How many letters the sessions have in all.
fn letters_in(kept: &[Kept]) -> usize {
    // No `sum`: nothing here bounds it.
    kept.iter().fold(
        0usize,
        |all, session| all.saturating_add(session.letters.len()),
    )
}

impl Model {
    pub(crate) fn new(heap: Global, most_sessions: usize, most_letters: usize) -> Model {
        Model {
            most_sessions,
            most_letters,
            kept: Vec::new(heap),
        }
    }

    /// How many sessions there are.
    pub(crate) fn len(&self) -> usize {
        self.kept.len()
    }

    /// How many letters they have in all.
    pub(crate) fn letters(&self) -> usize {
        letters_in(&self.kept)
    }

    /// The session at a place.
    pub(crate) fn session(&self, place: usize) -> Option<Session> {
        self.kept.get(place).map(|kept| Session {
            number: kept.number,
            letters: &kept.letters,
        })
    }

    pub(crate) fn clear(&mut self) {
        self.kept.clear();
    }

    /// Writes the list after the exchange, and takes it where it is within the limits.
    pub(crate) fn exchange(
        &mut self,
        heap: Global,
        places: &[usize],
        session: Session,
    ) -> Result<Result<(), NoRoom>, AllocError> {
        let mut after: Vec<Kept> = self
            .kept
            .iter()
            .enumerate()
            .filter(|(place, _)| !places.contains(place))
            .map(|(_, kept)| Kept::new(heap, kept.number, &kept.letters))
            .try_collect(heap)?;
        after.push(Kept::new(heap, session.number, session.letters)?)?;
        let fits = after.len() <= self.most_sessions && letters_in(&after) <= self.most_letters;
        if session.letters.len() > 128 || !fits {
            return Ok(Err(NoRoom));
        }
        self.kept = after;
        Ok(Ok(()))
    }
}
