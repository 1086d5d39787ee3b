//! Pairs of a rule and an automaton.
use crate::automata::CHANGING;
use crate::card_text::Ruling;
use crate::compare::{Asking, Comparison};
use crate::judge::Both;
use crate::random::Source;
use crate::rows::Rows;
use crate::rules::Kind;
use crate::sessions::Lists;
use crate::tally::{Tallies, Tally};
use crate::trial::Trial;
use automaton::Automaton;
use policy::Pair;
use std::{fmt, io};
use table_policy::TablePolicy;

/// How many pairs are made.
const PAIRS: u32 = 4000;

/// The rules of the pairs.
const KIND: Kind = Kind {
    rules: PAIRS,
    longest: 6,
    depth: 3,
    loops: 2,
};

/// The number of the refusal of two policies with unlike numbers of places.
const UNLIKE: u8 = 9;

/// Pairs, and what came of them, of the parts that came back, and of the refusals.
#[derive(Clone, Copy, Default)]
pub(crate) struct Pairs {
    pairs: Tallies,
    rules_back: Tallies,
    automata_back: Tallies,
    refusals: Tally,
}

impl Pairs {
    /// Judges by a rule and an automaton as a pair, or by both as they come back.
    fn by_pair(
        &mut self,
        asking: &mut Asking<'_>,
        policy: TablePolicy,
        automaton: Automaton,
        both: Both<'_, Ruling, Rows>,
    ) -> io::Result<()> {
        let rt = asking.rt;
        let unlike = both.first.places != both.second.places;
        match Pair::new(policy, automaton) {
            Ok(pair) => {
                if self.refusals.count(false, unlike) {
                    println!(rt; "difference: unlike policies are a pair")?;
                }
                let mut comparison = Comparison {
                    policy: &pair,
                    judge: &both,
                    tallies: &mut self.pairs,
                };
                comparison.run(asking)
            }
            Err(back) => {
                let expected = unlike && back.number() == UNLIKE;
                if self.refusals.count(true, expected) {
                    println!(rt; "difference: like policies are refused, or with another number")?;
                }
                let mut rule = Comparison {
                    policy: &back.first,
                    judge: both.first,
                    tallies: &mut self.rules_back,
                };
                rule.run(asking)?;
                let mut automaton = Comparison {
                    policy: &back.second,
                    judge: both.second,
                    tallies: &mut self.automata_back,
                };
                automaton.run(asking)
            }
        }
    }
}

impl Trial for Pairs {
    fn rounds(&self) -> u32 {
        PAIRS
    }

    fn round(&mut self, source: &mut Source<'_>, _round: u32) -> io::Result<()> {
        let places = source.random.places();
        let other = if source.random.one_in(4) {
            source.random.places()
        } else {
            places
        };
        let ruling = KIND.ruling(source, places)?;
        let rows = source.rows(other)?;
        let lists = Lists::new(source, KIND.longest, CHANGING)?;
        let Some(table) = ruling.form.table(source.rt.alloc(), places)? else {
            return Ok(());
        };
        let Ok(automaton) = rows.automaton() else {
            return Ok(());
        };
        let mut asking = Asking {
            rt: source.rt,
            lists: &lists,
            random: &mut source.random,
        };
        let both = Both {
            first: &ruling,
            second: &rows,
        };
        self.by_pair(&mut asking, TablePolicy::new(table), automaton, both)
    }
}

impl fmt::Display for Pairs {
    fn fmt<W: fmt::Write>(&self, f: &mut fmt::Formatter<W>) -> fmt::Result {
        let Tally {
            asked,
            yes,
            differences,
        } = self.refusals;
        writeln!(
            f,
            "{asked} pairs of a rule and an automaton: {yes} refused with {UNLIKE}, {differences} differences"
        )?;
        write!(f, "  pairs: {}", self.pairs)?;
        write!(f, "  rules that came back: {}", self.rules_back)?;
        write!(f, "  automata that came back: {}", self.automata_back)
    }
}
