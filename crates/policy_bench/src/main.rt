//! How long the engine takes for one node at one step. Run with the word `time` for the times; on
//! its own it prints only how many tuples broke each rule, which is the same on each run.
#![tactic(auto)]

mod tables;
mod words;

use policy::Policy;
use std::time::Instant;
use std::{env, io};
use table_policy::TablePolicy;
use tables::Size;
use words::session;

/// How many tuples are judged for each table.
const ROUNDS: u32 = 20000;

/// How many steps each tuple has.
const STEPS: u128 = 128;

/// Whether the program was asked for times.
fn is_timed(rt: &HostRuntime) -> io::Result<bool> {
    Ok(env::args(rt)?.any(|word| word.as_str() == "time"))
}

/// Whether the tuple of a round breaks the policy: its first session is another in each round.
fn is_broken(policy: &TablePolicy, mut first: [u32; 128], rest: &[&[u32]; 3], round: u32) -> bool {
    let letter = round.wrapping_mul(2654435761);
    first[0] = letter ^ (letter >> 16);
    let tuple: [&[u32]; 4] = [&first, rest[0], rest[1], rest[2]];
    policy.breaks(&tuple[..policy.arity().min(4)])
}

/// How many tuples break the policy.
fn broken(policy: &TablePolicy) -> usize {
    let first = session(1);
    let rest: [&[u32]; 3] = [&session(2), &session(3), &session(4)];
    (0..ROUNDS)
        .filter(|round| is_broken(policy, first, &rest, *round))
        .count()
}

/// Prints what came of a table of a size.
fn report(rt: &HostRuntime, size: Size, timed: bool) -> io::Result<()> {
    let Some(table) = size.table() else {
        return println!(rt; "no table");
    };
    let policy = TablePolicy::new(table);
    let start = Instant::now(rt)?;
    let count = broken(&policy);
    let spent = start.elapsed(rt)?;
    println!(rt; "{size}: {count} of {ROUNDS} tuples broke the rule")?;
    if timed {
        let picoseconds = spent.as_nanos().saturating_mul(1000)
            / (size.nodes as u128 * STEPS * ROUNDS as u128).max(1);
        println!(rt; "  {picoseconds} ps for a node at a step")?;
    }
    Ok(())
}

fn main(rt: HostRuntime) -> io::Result<()> {
    let timed = is_timed(&rt)?;
    for nodes in [8, 64] {
        for places in [2, 4] {
            report(&rt, Size { nodes, places }, timed)?;
        }
    }
    Ok(())
}
