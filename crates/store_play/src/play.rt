use crate::model::Model;
use crate::random::Random;
use crate::tally::Tally;
use std::alloc::{AllocError, Global};
use store::{Session, Store};

/// What a buffer's letters are before a copy.
const MARK: u32 = 0xffff_ffff;

/// Whether the buffer has the letters at its front and marks behind them.
fn has_front(buffer: &[u32], letters: &[u32]) -> bool {
    buffer.starts_with(letters) && buffer.iter().skip(letters.len()).all(|x| *x == MARK)
}

/// A store beside its model, the numbers that say what is played on both, and what came of it.
#[derive(Drop)]
pub(crate) struct Play<S> {
    store: S,
    model: Model,
    random: Random,
    tally: Tally,
    heap: Global,
}

impl<S: Store + Drop> Play<S> {
    /// Nothing is played yet on a store that holds nothing.
    pub(crate) fn new(store: S, model: Model, heap: Global) -> Play<S> {
        Play {
            store,
            model,
            random: Random::new(4),
            tally: Tally::default(),
            heap,
        }
    }

    /// The store, and what came of the calls.
    pub(crate) fn finish(self) -> (S, Tally) {
        let Play {
            store,
            model: _,
            random: _,
            tally,
            heap: _,
        } = self;
        (store, tally)
    }

    /// Plays so many calls, and compares everything after each.
    pub(crate) fn run(&mut self, calls: u32) -> Result<(), AllocError> {
        for _ in 0..calls {
            self.call()?;
            let alike = self.entries_alike()?;
            self.tally.note(alike);
            self.tally.calls = self.tally.calls.saturating_add(1);
            self.tally.most_sessions = self.tally.most_sessions.max(self.model.len());
            self.tally.most_letters = self.tally.most_letters.max(self.model.letters());
        }
        Ok(())
    }

    /// A random call on both.
    fn call(&mut self) -> Result<(), AllocError> {
        match self.random.below(1000) {
            0 => {
                self.store.clear();
                self.model.clear();
                Ok(())
            }
            1..=200 => self.read(),
            _ => self.exchange(),
        }
    }

    /// A read of some place to a buffer of some length.
    fn read(&mut self) -> Result<(), AllocError> {
        let place = self.random.below(self.model.len().saturating_add(2));
        let room = self.random.below(140);
        let mut buffer = vec![in self.heap; MARK; room]?;
        let alike = self.letters_alike(place, &mut buffer);
        self.tally.note(alike);
        Ok(())
    }

    /// A random exchange.
    fn exchange(&mut self) -> Result<(), AllocError> {
        let end = self.model.len().saturating_add(3);
        let random = &mut self.random;
        let mut places: Vec<usize> = (0..8).map(|_| random.below(end)).collect(self.heap)?;
        places.truncate(match random.below(8) {
            0 => random.below(9),
            1 | 2 | 3 => 1,
            _ => 0,
        });
        let len = some_len(random, self.tally.calls);
        let mut letters: Vec<u32> = (0..131).map(|_| random.next()).collect(self.heap)?;
        letters.truncate(len);
        let session = Session {
            number: random.next(),
            letters: &letters,
        };
        let answer = self.store.exchange(&places, session);
        let wanted = self.model.exchange(self.heap, &places, session)?;
        self.tally.note(answer == wanted);
        match wanted {
            Ok(()) => self.tally.taken = self.tally.taken.saturating_add(1),
            Err(_) => self.tally.refused = self.tally.refused.saturating_add(1),
        }
        Ok(())
    }

    /// Whether every entry is as the model says, and there is none past the last.
    fn entries_alike(&self) -> Result<bool, AllocError> {
        let mut buffer = vec![in self.heap; MARK; 128]?;
        let alike = (0..self.model.len()).all(|place| self.entry_alike(place)
            && self.letters_alike(place, &mut buffer));
        Ok(alike && self.entry_alike(self.model.len()))
    }

    /// Whether the answer for a place is as the model says.
    fn entry_alike(&self, place: usize) -> bool {
        let wanted = self.model.session(place);
        self.store.entry(place) == wanted.map(|session| (session.number, session.letters.len()))
    }

    /// Whether the copy of a place's letters to the buffer is as the model says.
    fn letters_alike(&self, place: usize, buffer: &mut [u32]) -> bool {
        buffer.fill(MARK);
        let answer = self.store.letters(place, buffer);
        match self.model.session(place) {
            Some(session) if session.letters.len() <= buffer.len() => answer
                == Some(session.letters.len())
                && has_front(buffer, session.letters),
            _ => answer.is_none() && has_front(buffer, &[]),
        }
    }
}

/// How many letters the next session has: few, any, many or exactly as many as there may be, by
/// turns, and a few times too many.
fn some_len(random: &mut Random, call: u32) -> usize {
    match call / 500 % 4 {
        0 => random.below(4),
        1 => random.below(131),
        2 => random.below(11).saturating_add(120),
        _ => 128,
    }
}
