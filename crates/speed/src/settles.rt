// Settling the plan of a record file, and timing it.
use super::digests::{digest, narrow_cells};
use anyhow::bail;
use book::Book;
use house::{Fact, House};
use plan::{Clash, Draft, Outcome, Refusal};
use record::{Content, read};
use record_entry::Tables;
use scale::{Recorded, Scale};
use std::fmt;
use std::time::Instant;
use workspace::{Described, Workspace, copies, describe};

// What settling came to.
#[derive(Clone, Copy)]
enum End {
    Settled,
    Contradiction(Clash),
    Refused(Refusal),
}

impl fmt::Display for End {
    fn fmt<W: fmt::Write>(&self, f: &mut fmt::Formatter<W>) -> fmt::Result {
        match self {
            End::Settled => write!(f, "settled"),
            End::Contradiction(at) => write!(f, "{at}"),
            End::Refused(refusal) => write!(f, "{refusal}"),
        }
    }
}

// Settles a draft, and gives it back with what that came to.
fn settled<S: Scale, B: Book<S>>(
    draft: Draft,
    house: &House<S>,
    book: &B,
    facts: &[Fact<S>],
    course: &mut [S],
) -> (Draft, End) {
    match draft.settle(house, book, facts, course) {
        Outcome::Settled(plan) => (plan.reopen(), End::Settled),
        Outcome::Contradiction { at, draft } => (draft, End::Contradiction(at)),
        Outcome::Refused { refusal, draft } => (draft, End::Refused(refusal)),
    }
}

// Settles a draft again and again, prints how long each time takes, and gives what the last time came to.
fn settle_often<F: FnMut(Draft) -> (Draft, End)>(
    rt: &HostRuntime,
    first: Draft,
    rounds: u32,
    mut settle: F,
) -> anyhow::Result<Option<End>>
    requires { F.IsAlwaysCallable settle }
{
    let mut draft = first;
    let mut end = None;
    for _round in 0..rounds {
        let start = Instant::now(rt)?;
        let (back, came) = settle(draft);
        let spent = start.elapsed(rt)?.as_nanos();
        eprintln!(rt; "{spent}")?;
        draft = back;
        end = Some(came);
    }
    Ok(end)
}

// Settles what was read from a file, and prints what came of it.
fn conclude<S: Recorded>(
    rt: &HostRuntime,
    content: Content,
    tables: &Tables<S>,
    rounds: u32,
) -> anyhow::Result<()> {
    let Content {
        draft,
        sizes,
        quorum,
    } = content;
    let Some(Described { house, book }) = describe(sizes, quorum, tables) else {
        bail!("the quorum is above 200");
    };
    let mut course = copies(rt.alloc(), S::loose(), sizes.cells())?;
    let end = settle_often(rt, draft, rounds, |draft| {
        settled(draft, &house, &book, tables.facts, &mut course)
    })?;
    match end {
        Some(end) => println!(rt; "{end}")?,
        None => println!(rt; "never settled")?,
    }
    let narrow = narrow_cells(&course);
    let hash = digest(&course);
    println!(rt; "{narrow} {hash:016x}")?;
    Ok(())
}

// Settles the plan of a record file so often.
pub fn run<S: Recorded>(rt: &HostRuntime, bytes: &[u8], rounds: u32) -> anyhow::Result<()> {
    let mut space = Workspace::<S>::new(rt.alloc())?;
    let mut tables = space.tables();
    match read(bytes, &mut tables) {
        Ok(content) => conclude(rt, content, &tables, rounds),
        Err(fault) => {
            println!(rt; "{fault}")?;
            Ok(())
        }
    }
}
