// Reads a record file in thousandths from standard input, whole, and prints its text.
#![tactic(auto)]

use report::run;
use scale::Thousandths;

fn main(rt: HostRuntime) -> anyhow::Result<()> {
    run::<Thousandths, _, _>(rt.alloc(), &mut rt.stdin(), &mut rt.stdout())
}
