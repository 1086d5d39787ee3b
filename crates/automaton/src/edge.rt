//! The rows of an automaton.
ghost use Rattle.std.specs.Prelude.{◌≡◌, ◌<◌, length, Decides, bit_and, nat_eq};
ghost use Rattle.automaton.specs.Testing.{fits_test, or_below, shown};

/// What an edge asks of the letter of a place: within the mask, its signals are the value.
#[derive(Clone, Copy, Debug, PartialEq, Eq)]
pub struct Guard {
    pub mask: u32,
    pub value: u32,
}

/// A row of an automaton: it leaves a state and enters a state, where the letter of each place
/// meets the place's guard.
#[derive(Clone, Copy, Debug, PartialEq, Eq)]
pub struct Edge {
    pub from: u8,
    pub to: u8,
    /// One for each place, in place, since the library has no heap.
    pub guards: [Guard; 4],
}

impl Guard {
    /// Whether a letter meets the guard.
    fn admits(&self, letter: u32) -> bool
        ensures { result ≡ nat_eq (bit_and letter self.now.mask) self.now.value }
    {
        letter & self.mask == self.value
    }
}

impl Edge {
    /// Whether the edge fits in a state where the places show these letters.
    #[tactic(auto, unfolding(crate::specs::Testing::fits_test))]
    pub(crate) fn fits(&self, state: u8, letters: &[u32]) -> bool
        ensures { result ≡ fits_test (length letters.now) (shown letters.now) self.now state }
    {
        self.from == state
            && letters
                .iter()
                .zip(&self.guards)
                .all(|(letter, guard)| guard.admits(*letter))
    }

    /// The signals in the masks of the first places.
    pub(crate) fn signals(&self, places: usize) -> u32
        ensures { result ≡ or_below places self.now.guards }
    {
        self.guards
            .iter()
            .take(places)
            .fold(0, |all, guard| all | guard.mask)
    }

    /// Whether the states that the edge leaves and enters are among so many.
    pub(crate) fn is_within(&self, states: usize) -> bool
        ensures { Decides result ((self.now.from < states) × (self.now.to < states)) }
    {
        (self.from as usize) < states && (self.to as usize) < states
    }
}
