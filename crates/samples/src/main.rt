//! A second evaluator beside the engine, on samples and on rules, automata and pairs that look
//! random.
#![tactic(auto)]

mod automata;
mod card_text;
mod compare;
mod compile;
mod form;
mod grow;
mod judge;
mod letters;
mod meaning;
mod pairs;
mod played;
mod random;
mod reads;
mod rows;
mod rules;
mod sessions;
mod tally;
mod trial;
mod word;

use automata::{Automata, Numbers};
use pairs::Pairs;
use played::play;
use random::{Random, Source};
use rules::{Kind, Rules};
use std::io;
use trial::run;

/// The kinds of rules: the longer the sessions, the fewer loops stand inside one another.
const KINDS: [Kind; 3] = [
    Kind {
        rules: 16000,
        longest: 6,
        depth: 5,
        loops: 3,
    },
    Kind {
        rules: 6000,
        longest: 24,
        depth: 4,
        loops: 2,
    },
    Kind {
        rules: 3000,
        longest: 128,
        depth: 4,
        loops: 1,
    },
];

fn main(rt: HostRuntime) -> io::Result<()> {
    play(&rt)?;
    let mut source = Source {
        rt: &rt,
        random: Random::new(1),
    };
    for kind in KINDS {
        run(&mut source, Rules::new(kind))?;
    }
    run(&mut source, Automata::default())?;
    run(&mut source, Numbers::default())?;
    run(&mut source, Pairs::default())
}
