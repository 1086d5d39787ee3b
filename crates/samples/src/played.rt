//! Samples, through cards read from their text.
use crate::card_text::Ruling;
use crate::form::Form;
use crate::judge::Judge;
use crate::word::InARow;
use card::{Card, read};
use lexer::Report;
use policy::Policy;
use std::io;
use syntax::{Binary, Unary};
use table_policy::TablePolicy;

/// A card's policy, and its rule as a tree.
#[derive(Drop)]
struct Sample {
    policy: TablePolicy,
    ruling: Ruling,
}

/// The form of a place and a signal.
fn at(place: u8, signal: u8) -> Form {
    Form::At { place, signal }
}

/// The form of two places that differ in at most so many of the signals.
fn near(limit: u8, signals: u32) -> Form {
    Form::Near {
        first: 0,
        second: 1,
        limit,
        signals,
    }
}

/// Reads a card and prints it; none where it is refused.
fn read_sample(rt: &HostRuntime, card: &str, ruling: Ruling) -> io::Result<Option<Sample>> {
    print!(rt; "{card}")?;
    match read(card.as_bytes()) {
        Ok(card) => {
            let Card { names: _, table } = card;
            println!(rt; "  {} nodes", table.nodes().len())?;
            Ok(Some(Sample {
                policy: TablePolicy::new(table),
                ruling,
            }))
        }
        Err(fault) => {
            println!(rt; "  refused with {}", Report::from(fault).number)?;
            Ok(None)
        }
    }
}

/// The word for a tuple's answer.
fn broken_word(broken: bool) -> &'static str {
    if broken { "breaks" } else { "holds" }
}

/// The word for the answer of a pair of sessions.
fn stands_word(stands: bool) -> &'static str {
    if stands { "stands" } else { "does not stand" }
}

impl Sample {
    /// Prints what both say of a tuple.
    fn tuple(&self, rt: &HostRuntime, tuple: &[&[u32]]) -> io::Result<()> {
        let engine = broken_word(self.policy.breaks(tuple));
        let second = broken_word(self.ruling.is_broken(tuple));
        println!(rt;
            " {}: engine {engine}, second evaluator {second}",
            InARow(tuple)
        )
    }

    /// Prints what both say of a session that may stand for another.
    fn pair(&self, rt: &HostRuntime, s: &[u32], t: &[u32]) -> io::Result<()> {
        let engine = stands_word(self.policy.stands_for(s, t));
        let second = stands_word(self.ruling.stands(s, t));
        println!(rt; "  {s:?} for {t:?}: engine {engine}, second evaluator {second}")
    }
}

/// The last step.
fn last_step(rt: &HostRuntime) -> io::Result<()> {
    let heap = rt.alloc();
    let form = Form::True
        .under(heap, Unary::Next)?
        .under(heap, Unary::Not)?;
    let card = "(sessions 1)\n(signal x)\n(signal y)\n(rule (not (next (true))))\n";
    let ruling = Ruling {
        places: 1,
        signals: 2,
        form,
    };
    if let Some(sample) = read_sample(rt, card, ruling)? {
        sample.tuple(rt, &[&[0]])?;
        sample.tuple(rt, &[&[0, 0]])?;
    }
    Ok(())
}

/// One signal until another.
fn until(rt: &HostRuntime) -> io::Result<()> {
    let form = at(0, 0).with(rt.alloc(), Binary::Until, at(0, 1))?;
    let card = "(sessions 1)\n(signal x)\n(signal y)\n(rule (until (at 1 x) (at 1 y)))\n";
    let ruling = Ruling {
        places: 1,
        signals: 2,
        form,
    };
    if let Some(sample) = read_sample(rt, card, ruling)? {
        sample.tuple(rt, &[&[1, 1, 2]])?;
        sample.tuple(rt, &[&[1, 1]])?;
        sample.tuple(rt, &[&[2]])?;
    }
    Ok(())
}

/// Two sessions that are never far from each other.
fn always_near(rt: &HostRuntime) -> io::Result<()> {
    let form = near(1, 3).under(rt.alloc(), Unary::Always)?;
    let card = "(sessions 2)\n(signal x)\n(signal y)\n(rule (always (near 1 2 1 x y)))\n";
    let ruling = Ruling {
        places: 2,
        signals: 2,
        form,
    };
    if let Some(sample) = read_sample(rt, card, ruling)? {
        sample.tuple(rt, &[&[0], &[3]])?;
        sample.tuple(rt, &[&[0], &[1, 3]])?;
    }
    Ok(())
}

/// The card of the demo.
fn demo(rt: &HostRuntime) -> io::Result<()> {
    let heap = rt.alloc();
    let form = near(0, 4).with(heap, Binary::Weak, near(0, 1).under(heap, Unary::Not)?)?;
    let card =
        "(sessions 2)\n(signal tariff)\n(signal load)\n(signal feed)\n(rule (weak (near 1 2 0 feed) (not (near 1 2 0 tariff))))\n";
    let ruling = Ruling {
        places: 2,
        signals: 3,
        form,
    };
    if let Some(sample) = read_sample(rt, card, ruling)? {
        sample.tuple(rt, &[&[1, 5], &[1, 1]])?;
        sample.tuple(rt, &[&[1, 5], &[1, 0]])?;
        sample.pair(rt, &[1, 5], &[3, 7])?;
        sample.pair(rt, &[1, 5], &[1, 3])?;
    }
    Ok(())
}

/// Two signals that are never on together.
fn never_both(rt: &HostRuntime) -> io::Result<()> {
    let heap = rt.alloc();
    let first = at(0, 0).under(heap, Unary::Not)?;
    let second = at(1, 1).under(heap, Unary::Not)?;
    let form = first
        .with(heap, Binary::Or, second)?
        .under(heap, Unary::Always)?;
    let card =
        "(sessions 2)\n(signal x)\n(signal y)\n(rule (always (or (not (at 1 x)) (not (at 2 y)))))\n";
    let ruling = Ruling {
        places: 2,
        signals: 2,
        form,
    };
    if let Some(sample) = read_sample(rt, card, ruling)? {
        sample.pair(rt, &[1, 1, 0, 0], &[1, 0, 0, 0])?;
        sample.pair(rt, &[1, 0, 0, 0], &[1, 1, 0, 0])?;
        sample.pair(rt, &[1, 0, 1, 0], &[1, 1, 0, 0])?;
        sample.pair(rt, &[1, 1, 0, 0], &[1, 0, 1, 0])?;
        sample.tuple(rt, &[&[1, 0, 1, 0], &[0, 0, 2, 0]])?;
        sample.tuple(rt, &[&[1, 1, 0, 0], &[0, 0, 2, 0]])?;
    }
    Ok(())
}

/// Plays all samples.
pub(crate) fn play(rt: &HostRuntime) -> io::Result<()> {
    last_step(rt)?;
    until(rt)?;
    always_near(rt)?;
    demo(rt)?;
    never_both(rt)
}
