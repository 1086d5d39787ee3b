//! Rules that look random, judged through their own table and through their card.
use crate::card_text::Ruling;
use crate::compare::{Asking, Comparison};
use crate::grow::Bounds;
use crate::random::{Random, Source};
use crate::sessions::Lists;
use crate::tally::{Tallies, Tally};
use crate::trial::Trial;
use card::{Card, read};
use lexer::Report;
use std::alloc::AllocError;
use std::{fmt, io};
use table_policy::TablePolicy;

/// The most nodes of a card's rule.
const MOST_NODES: u32 = 64;

/// The number of the refusal of a card with more.
const TOO_MANY_NODES: u8 = 7;

/// A kind of rules: how many there are, how long their sessions mostly are at most, how deep they
/// go, and how many of their forms that look over all steps stand inside one another.
#[derive(Clone, Copy)]
pub(crate) struct Kind {
    pub(crate) rules: u32,
    pub(crate) longest: u8,
    pub(crate) depth: u8,
    pub(crate) loops: u8,
}

/// How many signals a rule may name: mostly few.
fn signals(random: &mut Random) -> u8 {
    match random.below(8) {
        0 => 32,
        1 => 1,
        2 | 3 => 3,
        _ => 2,
    }
}

impl Kind {
    /// A rule of the kind.
    pub(crate) fn ruling(self, source: &mut Source<'_>, places: u8) -> Result<Ruling, AllocError> {
        let signals = signals(&mut source.random);
        let bounds = Bounds {
            places,
            signals,
            loops: self.loops,
        };
        let form = bounds.grow(source, self.depth)?;
        Ok(Ruling {
            places,
            signals,
            form,
        })
    }
}

/// The rules of a kind, and what came of them.
#[derive(Clone, Copy)]
pub(crate) struct Rules {
    kind: Kind,
    tables: Tallies,
    cards: Tallies,
    refusals: Tally,
}

impl Rules {
    /// The rules of a kind, none of them judged yet.
    pub(crate) fn new(kind: Kind) -> Rules {
        Rules {
            kind,
            tables: Tallies::default(),
            cards: Tallies::default(),
            refusals: Tally::default(),
        }
    }

    /// Judges by a rule's own table, where it is not too large for one.
    fn by_table(&mut self, asking: &mut Asking<'_>, ruling: &Ruling) -> io::Result<()> {
        if let Some(table) = ruling.form.table(asking.rt.alloc(), ruling.places)? {
            let mut comparison = Comparison {
                policy: &TablePolicy::new(table),
                judge: ruling,
                tallies: &mut self.tables,
            };
            comparison.run(asking)?;
        }
        Ok(())
    }

    /// Judges by the table that is read from a rule's card. The card is refused exactly where it
    /// has too many nodes.
    fn by_card(&mut self, asking: &mut Asking<'_>, ruling: &Ruling) -> io::Result<()> {
        let rt = asking.rt;
        let text = format!(in rt.alloc(); "{ruling}")?;
        let too_large = ruling.form.card_nodes() > MOST_NODES;
        match read(text.as_bytes()) {
            Ok(card) => {
                let Card { names: _, table } = card;
                if self.refusals.count(false, too_large) {
                    println!(rt; "difference: this card is accepted\n{text}")?;
                }
                let mut comparison = Comparison {
                    policy: &TablePolicy::new(table),
                    judge: ruling,
                    tallies: &mut self.cards,
                };
                comparison.run(asking)
            }
            Err(fault) => {
                let number = Report::from(fault).number;
                let expected = too_large && number == TOO_MANY_NODES;
                if self.refusals.count(true, expected) {
                    println!(rt; "difference: this card is refused with {number}\n{text}")?;
                }
                Ok(())
            }
        }
    }
}

impl Trial for Rules {
    fn rounds(&self) -> u32 {
        self.kind.rules
    }

    fn round(&mut self, source: &mut Source<'_>, _round: u32) -> io::Result<()> {
        let places = source.random.places();
        let ruling = self.kind.ruling(source, places)?;
        let changing = ruling.signals.saturating_add(1);
        let lists = Lists::new(source, self.kind.longest, changing)?;
        let mut asking = Asking {
            rt: source.rt,
            lists: &lists,
            random: &mut source.random,
        };
        self.by_table(&mut asking, &ruling)?;
        self.by_card(&mut asking, &ruling)
    }
}

impl fmt::Display for Rules {
    fn fmt<W: fmt::Write>(&self, f: &mut fmt::Formatter<W>) -> fmt::Result {
        let Kind { rules, longest, .. } = self.kind;
        writeln!(
            f,
            "{rules} rules, sessions of mostly up to {longest} letters"
        )?;
        write!(f, "  own tables: {}", self.tables)?;
        write!(f, "  tables read from cards: {}", self.cards)?;
        writeln!(
            f,
            "  cards of over {MOST_NODES} nodes: {} refused, {} differences",
            self.refusals.yes, self.refusals.differences
        )
    }
}
