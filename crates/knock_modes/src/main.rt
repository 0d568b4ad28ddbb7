// Reads a record file in modes from standard input, whole, and prints its text.
#![tactic(auto)]

use report::run;
use scale::Modes;

fn main(rt: HostRuntime) -> anyhow::Result<()> {
    run::<Modes, _, _>(rt.alloc(), &mut rt.stdin(), &mut rt.stdout())
}
