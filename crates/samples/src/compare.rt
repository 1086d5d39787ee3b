//! The engine beside a second judge.
ghost use Rattle.std.specs.Prelude.{◌≤◌};

use crate::judge::Judge;
use crate::letters::are_sessions;
use crate::random::Random;
use crate::sessions::Lists;
use crate::tally::Tallies;
use crate::word::InARow;
use policy::Policy;
use std::io;

/// How many tuples and how many pairs of lists each policy is asked about.
const QUESTIONS: u8 = 6;

/// The most places of a tuple that is asked about: one more than a policy may have.
const MOST_PLACES: u8 = 5;

/// Where differences are printed, and what questions are made of.
#[derive(Drop)]
pub(crate) struct Asking<'a> {
    pub(crate) rt: &'a HostRuntime,
    pub(crate) lists: &'a Lists,
    pub(crate) random: &'a mut Random,
}

impl<'a> Asking<'a> {
    /// One of the lists.
    fn list(&mut self) -> &'a [u32] {
        self.lists.any(self.random)
    }

    /// How many places a tuple has: now and then another number than the judge's.
    fn tuple_len(&mut self, places: u8) -> usize
        ensures { result ≤ 5 }
    {
        let len = if self.random.one_in(16) {
            self.random.below(MOST_PLACES + 1)
        } else {
            places
        };
        len.min(MOST_PLACES) as usize
    }
}

/// A policy of the engine beside a second judge, and what came of both.
#[derive(Drop)]
pub(crate) struct Comparison<'a, P, J> {
    pub(crate) policy: &'a P,
    pub(crate) judge: &'a J,
    pub(crate) tallies: &'a mut Tallies,
}

impl<'a, P: Policy, J: Judge> Comparison<'a, P, J> {
    /// Prints a case in which the two differ.
    fn print_difference(
        &self,
        rt: &HostRuntime,
        question: &str,
        lists: &[&[u32]],
        engine: bool,
    ) -> io::Result<()> {
        let judge = self.judge;
        println!(rt;
            "difference: {question}{}? The engine says {engine}.",
            InARow(lists)
        )?;
        print!(rt; "{judge}")
    }

    /// Asks both for the number of places.
    fn ask_places(&mut self, rt: &HostRuntime) -> io::Result<()> {
        let judge = self.judge;
        let alike = self.policy.arity() == judge.places() as usize;
        if self.tallies.places.count(alike, true) {
            println!(rt; "difference: the number of places")?;
            print!(rt; "{judge}")?;
        }
        Ok(())
    }

    /// Asks both whether a tuple of some of the lists breaks the policy.
    fn ask_breaks(&mut self, asking: &mut Asking<'_>) -> io::Result<()> {
        let places = self.judge.places();
        let five = [(); 5].map(|_| asking.list());
        let tuple = &five[..asking.tuple_len(places)];
        if !are_sessions(tuple, places) {
            self.tallies.no_tuples = self.tallies.no_tuples.saturating_add(1);
        }
        let engine = self.policy.breaks(tuple);
        if self
            .tallies
            .broken
            .count(engine, self.judge.is_broken(tuple))
        {
            self.print_difference(asking.rt, "breaks", tuple, engine)?;
        }
        Ok(())
    }

    /// Asks both whether one of the lists stands for another.
    fn ask_stands(&mut self, asking: &mut Asking<'_>) -> io::Result<()> {
        let s = asking.list();
        let t = asking.list();
        let engine = self.policy.stands_for(s, t);
        if engine && s != t {
            self.tallies.unlike = self.tallies.unlike.saturating_add(1);
        }
        if self.tallies.standing.count(engine, self.judge.stands(s, t)) {
            self.print_difference(asking.rt, "stands for", &[s, t], engine)?;
        }
        Ok(())
    }

    /// Asks both for the number of places, and about some tuples and pairs of the lists.
    pub(crate) fn run(&mut self, asking: &mut Asking<'_>) -> io::Result<()> {
        let before = *self.tallies;
        self.ask_places(asking.rt)?;
        for _ in 0..QUESTIONS {
            self.ask_breaks(asking)?;
            self.ask_stands(asking)?;
        }
        self.tallies.note_mixed(before);
        Ok(())
    }
}
