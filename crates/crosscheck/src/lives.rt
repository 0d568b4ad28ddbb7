// Lives of a plan: random lists of calls, played by the library's `replay` and by the second program's ledger.
use super::bounds::{Taste, Width, low};
use super::compare::Answers;
use super::damage::damage;
use super::dice::Dice;
use super::files::{Draft, Shape, Sketch};
use super::scales::Compared;
use anyhow::{Context, bail};
use house::{Cell, Fact};
use life::{Answer, Call, replay};
use record::{Content, read};
use record_entry::Tables;
use scale::Recorded;
use second::{Kind, Ledger, Set};
use std::alloc::{AllocError, Global};
use std::fmt;
use workspace::{Described, Workspace, copies, describe};

// A bound in a call, as four bytes, so that each program reads it in its own way.
type Form = [u8; 4];

fn random_fact(dice: &mut Dice, sketch: Sketch) -> Fact<Form> {
    let Sketch { shape, taste } = sketch;
    let from = dice.below(shape.last.saturating_add(2));
    let least = from.saturating_sub(dice.below(2));
    let to = dice.between(least, from.saturating_add(2));
    let width = if dice.once_in(2) {
        Width::Narrow
    } else {
        Width::Wide
    };
    Fact {
        component: number(dice.below(shape.components().saturating_add(1))),
        label: low(shape.fixed.saturating_add(dice.below(shape.moving))),
        bound: taste.bound(dice, width),
        from: low(from),
        to: low(to.min(shape.last)),
    }
}

// A number that fits 16 bits, and 0 otherwise.
fn number(n: usize) -> u16 {
    u16::try_from(n).unwrap_or(0)
}

fn random_look(dice: &mut Dice, shape: Shape) -> Call<Form> {
    let hour = dice.below(shape.last.saturating_add(2));
    let component = dice.below(shape.components());
    let label = dice.below(shape.moving.saturating_add(1));
    Call::Look(Cell {
        hour: low(hour),
        component: number(component),
        label: low(shape.fixed.saturating_add(label)),
    })
}

// A random call. Settling is common, so that most lives come to it.
fn random_call(dice: &mut Dice, sketch: Sketch) -> Call<Form> {
    match dice.below(12) {
        0 | 1 | 2 => Call::File(random_fact(dice, sketch)),
        3 => Call::Strike(dice.below(4)),
        4 | 5 => Call::Settle,
        6 => Call::Reopen,
        7 | 8 | 9 => random_look(dice, sketch.shape),
        _ => Call::Entails(random_fact(dice, sketch)),
    }
}

// Facts and calls as each program has them. Functions, and no `From`: none of the types is this crate's own.
//
// The fact as the library has it.
fn lent_fact<S: Recorded>(fact: Fact<Form>) -> anyhow::Result<Fact<S>> {
    let bound = S::from_bytes(fact.bound).ok();
    Ok(Fact {
        component: fact.component,
        label: fact.label,
        bound: bound.context("a bound was made that is none")?,
        from: fact.from,
        to: fact.to,
    })
}

// The call as the library has it.
fn lent_call<S: Recorded>(call: Call<Form>) -> anyhow::Result<Call<S>> {
    Ok(match call {
        Call::File(fact) => Call::File(lent_fact(fact)?),
        Call::Strike(at) => Call::Strike(at),
        Call::Settle => Call::Settle,
        Call::Reopen => Call::Reopen,
        Call::Look(cell) => Call::Look(cell),
        Call::Entails(fact) => Call::Entails(lent_fact(fact)?),
    })
}

// The fact as the second program has it.
fn own_fact(kind: Kind, fact: Fact<Form>) -> second::Fact {
    second::Fact {
        component: fact.component as usize,
        label: fact.label as usize,
        bound: kind.bound(fact.bound).unwrap_or(Set::empty()),
        from: fact.from as usize,
        to: fact.to as usize,
    }
}

// The call as the second program has it.
fn own_call(kind: Kind, call: Call<Form>) -> second::Call {
    match call {
        Call::File(fact) => second::Call::File(own_fact(kind, fact)),
        Call::Strike(at) => second::Call::Strike(at),
        Call::Settle => second::Call::Settle,
        Call::Reopen => second::Call::Reopen,
        Call::Look(cell) => second::Call::Look(second::Cell {
            hour: cell.hour as usize,
            component: cell.component as usize,
            label: cell.label as usize,
        }),
        Call::Entails(fact) => second::Call::Entails(own_fact(kind, fact)),
    }
}

// An answer of the library, as the second program tells it.
#[derive(Drop)]
struct Told<S>(Answer<S>);

impl<S: Recorded> fmt::Display for Told<S> {
    fn fmt<W: fmt::Write>(&self, f: &mut fmt::Formatter<W>) -> fmt::Result {
        match self.0 {
            Answer::Filed => write!(f, "filed"),
            Answer::Struck => write!(f, "struck"),
            Answer::Settled => write!(f, "settled"),
            Answer::Reopened => write!(f, "reopened"),
            Answer::Misplaced => write!(f, "misplaced"),
            Answer::Contradiction(at) => write!(f, "{at}"),
            Answer::Seen(bound) => {
                let [p, q, r, s] = bound.to_bytes();
                let a = u16::from_be_bytes([p, q]);
                let b = u16::from_be_bytes([r, s]);
                write!(f, "seen {a} {b}")
            }
            Answer::Entailed(yes) => write!(f, "entailed {yes}"),
            Answer::Refused(refusal) => write!(f, "{refusal}"),
        }
    }
}

// A life: a file without facts, the calls on its plan, and memory for so many facts and cells.
#[derive(Drop)]
struct Life {
    file: Vec<u8>,
    calls: Vec<Call<Form>>,
    facts: usize,
    cells: usize,
}

impl Life {
    // One house in eight is damaged, and one course in sixteen has a cell too many.
    fn random(heap: Global, dice: &mut Dice, kind: Kind) -> Result<Life, AllocError> {
        let mut shape = Shape::small(dice);
        shape.facts = 0;
        let taste = Taste::roll(dice, kind);
        let sketch = Sketch { shape, taste };
        let mut file = Draft::write(heap, dice, sketch)?;
        if dice.once_in(8) {
            damage(heap, dice, &mut file.bytes)?;
        }
        let more = usize::from(dice.once_in(16));
        let facts = dice.between(0, 6);
        let calls = dice.between(5, 30);
        let calls = (0..calls).map(|_i| random_call(dice, sketch));
        Ok(Life {
            file: file.bytes,
            calls: calls.collect(heap)?,
            facts,
            cells: shape.cells().saturating_add(more),
        })
    }

    // What the library answers on the house that was read.
    fn played<S: Recorded>(
        &self,
        heap: Global,
        content: Content,
        tables: &Tables<S>,
    ) -> anyhow::Result<String> {
        let Content { sizes, quorum, .. } = content;
        let Some(Described { house, book }) = describe(sizes, quorum, tables) else {
            bail!("the quorum is above 200");
        };
        let calls = self.calls.iter().map(|call| lent_call::<S>(*call));
        let calls: Vec<Call<S>> = calls.try_collect(heap)?;
        let facts = tables.facts.iter().copied().take(self.facts);
        let mut facts: Vec<Fact<S>> = facts.collect(heap)?;
        let mut course = copies(heap, S::loose(), self.cells)?;
        let answers = replay(heap, &house, &book, &calls, &mut facts, &mut course)?;
        let mut text = String::new(heap);
        for answer in &answers {
            let told = Told(*answer);
            writeln!(text, "{told}")?;
        }
        Ok(text)
    }

    // What the library answers.
    fn first_answers<S: Recorded>(&self, heap: Global) -> anyhow::Result<String> {
        let mut space = Workspace::<S>::new(heap)?;
        let mut tables = space.tables();
        match read(&self.file, &mut tables) {
            Ok(content) => self.played(heap, content, &tables),
            Err(_) => Ok(String::from_str(heap, "no house\n")?),
        }
    }

    // What the second program answers.
    fn other_answers(&self, heap: Global, kind: Kind) -> anyhow::Result<String> {
        let Ok(network) = second::read(heap, kind, &self.file) else {
            return Ok(String::from_str(heap, "no house\n")?);
        };
        let course = copies(heap, kind.all(), self.cells)?;
        let mut ledger = Ledger::open(network, self.facts, course);
        let mut text = String::new(heap);
        for call in &self.calls {
            let line = ledger.answer(heap, &own_call(kind, *call))?;
            text.push_str(line.as_str())?;
        }
        Ok(text)
    }
}

// What the two programs answer to one random life on a random house.
pub fn live<S: Compared>(heap: Global, dice: &mut Dice) -> anyhow::Result<Answers> {
    let life = Life::random(heap, dice, S::KIND)?;
    Ok(Answers {
        first: life.first_answers::<S>(heap)?,
        other: life.other_answers(heap, S::KIND)?,
    })
}
