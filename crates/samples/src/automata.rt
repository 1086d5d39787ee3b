//! Automata that look random.
use crate::compare::{Asking, Comparison};
use crate::random::{Random, Source};
use crate::rows::Rows;
use crate::sessions::Lists;
use crate::tally::{Tallies, Tally};
use crate::trial::Trial;
use automaton::{Edge, Guard};
use std::alloc::AllocError;
use std::{fmt, io};

/// How many automata are judged by.
const AUTOMATA: u32 = 6000;

/// How many times numbers near the limits are tried.
const NUMBERS: u32 = 4000;

/// The number of the refusal of numbers that make no automaton.
const OUT_OF_RANGE: u8 = 8;

/// How many signals the guards ask for.
const SIGNALS: u8 = 3;

/// How many signals change in the lists.
pub(crate) const CHANGING: u8 = 5;

/// A guard that every letter meets.
const OPEN: Guard = Guard { mask: 0, value: 0 };

impl Random {
    /// A guard that asks for few signals or none, and now and then for a value that no letter has.
    fn guard(&mut self) -> Guard {
        if self.one_in(2) {
            return OPEN;
        }
        let mut mask = self.signal(SIGNALS);
        if self.one_in(3) {
            mask |= self.signal(SIGNALS);
        }
        let letter = self.letter();
        let value = if self.one_in(30) {
            letter
        } else {
            letter & mask
        };
        Guard { mask, value }
    }

    /// A row between two of so many states.
    fn edge(&mut self, states: u8) -> Edge {
        Edge {
            from: self.below(states),
            to: self.below(states),
            guards: [self.guard(), self.guard(), self.guard(), self.guard()],
        }
    }

    /// A row from a state that every letter fits.
    fn open_edge(&mut self, from: u8, states: u8) -> Edge {
        Edge {
            from,
            to: self.below(states),
            guards: [OPEN; 4],
        }
    }

    /// The good states among so many.
    fn good_states(&mut self, states: u8) -> u16 {
        (self.some_of(states.min(16), 2) & 0xffff) as u16
    }
}

impl<'a> Source<'a> {
    /// So many rows between so many states.
    fn edges(&mut self, rows: u8, states: u8) -> Result<Vec<Edge>, AllocError> {
        let random = &mut self.random;
        (0..rows)
            .map(|_| random.edge(states))
            .collect(self.rt.alloc())
    }

    /// The rows of an automaton over so many places: after the first mostly one for each state that
    /// every letter fits.
    pub(crate) fn rows(&mut self, places: u8) -> Result<Rows, AllocError> {
        let states = self.random.below(5).saturating_add(1);
        let count = self.random.below(24);
        let good = self.random.good_states(states);
        let mut edges = self.edges(count, states)?;
        let random = &mut self.random;
        if !random.one_in(4) {
            edges.extend((0..states).map(|from| random.open_edge(from, states)))?;
        }
        Ok(Rows {
            places,
            states,
            good,
            edges,
        })
    }

    /// Rows with numbers near the limits and past them.
    fn odd_rows(&mut self) -> Result<Rows, AllocError> {
        let random = &mut self.random;
        let states = if random.one_in(2) {
            random.below(19)
        } else {
            16
        };
        let count = if random.one_in(4) {
            60 + random.below(8)
        } else {
            random.below(8)
        };
        let past = states.saturating_add(random.below(2));
        let good = random.good_states(past);
        let among = if random.one_in(8) {
            states.saturating_add(1)
        } else {
            states
        };
        let edges = self.edges(count, among)?;
        Ok(Rows {
            places: self.random.below(6),
            states,
            good,
            edges,
        })
    }
}

/// Automata, and what came of them.
#[derive(Clone, Copy, Default)]
pub(crate) struct Automata {
    tallies: Tallies,
}

impl Trial for Automata {
    fn rounds(&self) -> u32 {
        AUTOMATA
    }

    fn round(&mut self, source: &mut Source<'_>, round: u32) -> io::Result<()> {
        let places = source.random.places();
        let rows = source.rows(places)?;
        let longest = if round % 8 == 0 { 128 } else { 8 };
        let lists = Lists::new(source, longest, CHANGING)?;
        match rows.automaton() {
            Ok(automaton) => {
                let mut asking = Asking {
                    rt: source.rt,
                    lists: &lists,
                    random: &mut source.random,
                };
                let mut comparison = Comparison {
                    policy: &automaton,
                    judge: &rows,
                    tallies: &mut self.tallies,
                };
                comparison.run(&mut asking)
            }
            Err(refusal) => {
                println!(source.rt;
                    "difference: an automaton is refused with {}",
                    refusal.number()
                )
            }
        }
    }
}

impl fmt::Display for Automata {
    fn fmt<W: fmt::Write>(&self, f: &mut fmt::Formatter<W>) -> fmt::Result {
        writeln!(f, "{AUTOMATA} automata")?;
        write!(f, "  by rows: {}", self.tallies)
    }
}

/// Numbers near the limits of automata, and which were refused.
#[derive(Clone, Copy, Default)]
pub(crate) struct Numbers {
    refusals: Tally,
}

impl Trial for Numbers {
    fn rounds(&self) -> u32 {
        NUMBERS
    }

    fn round(&mut self, source: &mut Source<'_>, _round: u32) -> io::Result<()> {
        let rows = source.odd_rows()?;
        let refused = rows
            .automaton()
            .is_err_and(|refusal| refusal.number() == OUT_OF_RANGE);
        if self.refusals.count(refused, !rows.are_right()) {
            print!(source.rt; "difference: refused {refused}\n{rows}")?;
        }
        Ok(())
    }
}

impl fmt::Display for Numbers {
    fn fmt<W: fmt::Write>(&self, f: &mut fmt::Formatter<W>) -> fmt::Result {
        writeln!(
            f,
            "{NUMBERS} automata with numbers near the limits: {} refused with {OUT_OF_RANGE}, {} differences",
            self.refusals.yes, self.refusals.differences
        )
    }
}
