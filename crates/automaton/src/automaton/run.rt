ghost use Rattle.std.specs.Prelude.{◌≡◌, ℕ, length};
ghost use Rattle.policy.specs.Sessions.{on, sessions};
ghost use Rattle.automaton.specs.Automata.{edges_of};
ghost use Rattle.automaton.specs.Testing.{accepts, go_on, next_state, shown};

use crate::automaton::Automaton;
use policy::{JoinedWord, is_on};

impl Automaton {
    /// The state that the first fitting edge enters, if one fits.
    fn next_state(&self, state: u8, letters: &[u32]) -> Option<u8>
        ensures { result ≡ next_state (length letters.now) (edges_of self.now) (shown letters.now) state }
    {
        self.edges
            .as_slice()
            .iter()
            .find(|edge| edge.fits(state, letters))
            .map(|edge| edge.to)
    }

    /// The state in which the run over a joined word ends, if an edge fits at each step.
    fn last_state(&self, word: &JoinedWord) -> Option<u8>
        ensures { (good : ℕ) → accepts self.now.places (edges_of self.now) good (sessions word.now.places) word.now.steps 0 0 ≡ go_on result (on good) }
    {
        (0..word.len()).try_fold(0, |state, step| {
            self.next_state(state, &word.letters_at(step)[..self.places])
        })
    }

    /// Whether the run over a joined word ends in a good state.
    pub(crate) fn accepts(&self, word: &JoinedWord) -> bool
        ensures { result ≡ accepts self.now.places (edges_of self.now) self.now.good (sessions word.now.places) word.now.steps 0 0 }
    {
        self.last_state(word)
            .is_some_and(|state| is_on(self.good as u32, state))
    }
}
