// How long settling takes. Reads a record file from standard input, whole, and settles its plan as often as is asked.
//
// The arguments are the scale, `thousandths` or `modes`, and how often to settle. The first line of standard output says
// what settling came to, the second how many cells are not loose, and a digest of all cells. Standard error has the
// nanoseconds of each settle.
#![tactic(auto)]

mod digests;
mod settles;

use anyhow::{Context, anyhow};
use scale::{Modes, Thousandths};
use settles::run;
use std::env;
use std::io::Read;

fn measured(rt: &HostRuntime) -> anyhow::Result<()> {
    let mut words = env::args(rt)?.skip(1);
    let scale = words.next().context("which scale?")?;
    let rounds = words.next().context("how often?")?.parse::<u32>()?;
    let mut bytes = Vec::new(rt.alloc());
    let _ = rt.stdin().read_to_end(&mut bytes)?;
    match scale.as_str() {
        "thousandths" => run::<Thousandths>(rt, &bytes, rounds),
        "modes" => run::<Modes>(rt, &bytes, rounds),
        _ => Err(anyhow!("the scale is thousandths or modes")),
    }
}

fn main(rt: HostRuntime) -> anyhow::Result<()> {
    measured(&rt)
}
