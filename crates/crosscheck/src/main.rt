// Compares the planner with the second program: on random record files, lawful, contradicting, damaged and at limits, in
// both scales, and on random lists of calls.
//
// The arguments are a seed, how many files there are in each scale, and how many lists of calls. It prints how often
// each outcome came and both agreed on it; of a difference it prints the file and both texts.
#![tactic(auto)]

mod bounds;
mod compare;
mod damage;
mod dice;
mod files;
mod limits;
mod lives;
mod samples;
mod scales;
mod tally;

use anyhow::Context;
use compare::{Answers, both_texts, random_file};
use dice::Dice;
use lives::live;
use samples::{COUNT, samples_right};
use scale::{Modes, Thousandths};
use scales::Compared;
use std::env;
use tally::{Outcome, Tally};

// Prints a difference: the bytes of the file, sixteen on a line, and both texts.
fn show(rt: &HostRuntime, bytes: &[u8], texts: &Answers) -> anyhow::Result<()> {
    let Answers { first, other } = texts;
    println!(rt; "they differ on this file:")?;
    for record in bytes.chunks(16) {
        println!(rt; "  {record:?}")?;
    }
    println!(rt; "the planner says:\n{first}the second program says:\n{other}")?;
    Ok(())
}

// Compares both programs on random files.
fn compare_files<S: Compared>(
    rt: &HostRuntime,
    dice: &mut Dice,
    files: usize,
) -> anyhow::Result<Tally> {
    let mut tally = Tally::new();
    // A loop that counts, and no chain: a turn can fail, and prints what differs.
    for i in 0..files {
        let file = random_file(rt.alloc(), dice, S::KIND, i)?;
        let texts = both_texts::<S>(rt.alloc(), &file)?;
        if texts.agree() {
            tally.note(Outcome::of(texts.first.as_str()));
        } else {
            tally.differ = tally.differ.saturating_add(1);
            show(rt, &file, &texts)?;
        }
    }
    Ok(tally)
}

// On how many calls both programs agreed, and how many lists of calls differ.
#[derive(Clone, Copy)]
struct Agreement {
    calls: usize,
    differ: usize,
}

// Compares both programs on random lists of calls.
fn compare_lives<S: Compared>(
    rt: &HostRuntime,
    dice: &mut Dice,
    lives: usize,
) -> anyhow::Result<Agreement> {
    let mut calls = 0usize;
    let mut differ = 0usize;
    // A loop that counts, for the same reason.
    for _i in 0..lives {
        let answers = live::<S>(rt.alloc(), dice)?;
        if answers.agree() {
            calls = calls.saturating_add(answers.first.as_str().lines().count());
        } else {
            differ = differ.saturating_add(1);
            let Answers { first, other } = &answers;
            println!(rt; "they differ on these calls:\n{first}and\n{other}")?;
        }
    }
    Ok(Agreement { calls, differ })
}

fn row(rt: &HostRuntime, name: &str, left: usize, right: usize) -> anyhow::Result<()> {
    println!(rt; "{name:<22}{left:>12}{right:>12}")?;
    Ok(())
}

// Prints how often an outcome came in each scale.
fn outcome_row(
    rt: &HostRuntime,
    outcome: Outcome,
    left: &Tally,
    right: &Tally,
) -> anyhow::Result<()> {
    let name = outcome.to_string(rt.alloc())?;
    row(rt, name.as_str(), left.of(outcome), right.of(outcome))
}

// Prints how often each outcome came; of the refusals those that came.
fn outcomes(rt: &HostRuntime, left: &Tally, right: &Tally) -> anyhow::Result<()> {
    for outcome in [Outcome::Listing, Outcome::Nothing, Outcome::Contradiction] {
        outcome_row(rt, outcome, left, right)?;
    }
    for outcome in (0..=u8::MAX).map(Outcome::Refused) {
        if left.of(outcome) > 0 || right.of(outcome) > 0 {
            outcome_row(rt, outcome, left, right)?;
        }
    }
    row(rt, "files that differ", left.differ, right.differ)
}

fn run(rt: &HostRuntime) -> anyhow::Result<()> {
    let mut words = env::args(rt)?.skip(1);
    let seed = words.next().context("which seed?")?.parse::<u64>()?;
    let files = words.next().context("how many files?")?.parse::<usize>()?;
    let lives = words
        .next()
        .context("how many lists of calls?")?
        .parse::<usize>()?;
    let right = samples_right(rt.alloc())?;
    println!(rt; "worked examples: {right} of {COUNT} as they have to be")?;
    let mut dice = Dice::from_seed(seed);
    let ranges = compare_files::<Thousandths>(rt, &mut dice, files)?;
    let masks = compare_files::<Modes>(rt, &mut dice, files)?;
    println!(rt; "{:<22}{:>12}{:>12}", "files", "thousandths", "modes")?;
    outcomes(rt, &ranges, &masks)?;
    let ranges = compare_lives::<Thousandths>(rt, &mut dice, lives)?;
    let masks = compare_lives::<Modes>(rt, &mut dice, lives)?;
    row(rt, "calls", ranges.calls, masks.calls)?;
    row(rt, "lists that differ", ranges.differ, masks.differ)
}

fn main(rt: HostRuntime) -> anyhow::Result<()> {
    run(&rt)
}
