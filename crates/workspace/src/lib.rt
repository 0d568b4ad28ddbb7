// What a program holds while it works on a record file: room for the tables, and the house that a file describes there.
#![tactic(auto)]

ghost use Rattle.std.specs.Prelude.{◌≡◌, replicate, take, IfOk};
ghost use Rattle.workspace.specs.Spaces.{Roomy, Housed, DescribedBy, Lent};

use book::{Quorum, Stair, Stairs};
use house::{Body, Condition, Constraint, Edge, Fact, House, Kind, Rule, Sizes, Test};
use record_entry::{Shelf, Tables};
use scale::Scale;
use std::alloc::{AllocError, Global};

// For how many records of each kind there is room.
const EDGES: usize = 600;

// All fixed bounds of the largest house.
const FIXED: usize = 12_800;

const TESTS: usize = 64;

const CONDITIONS: usize = 64;

const CONSTRAINTS: usize = 64;

const RULES: usize = 64;

const STEPS: usize = 256;

const FACTS: usize = 1000;

// Room for the tables of a file.
#[derive(Drop)]
pub struct Workspace<S> {
    pub edges: Vec<Edge>,
    pub fixed: Vec<S>,
    pub tests: Vec<Test<S>>,
    pub conditions: Vec<Condition>,
    pub constraints: Vec<Constraint>,
    pub rules: Vec<Rule>,
    pub steps: Vec<Stair<S>>,
    pub facts: Vec<Fact<S>>,
}

impl<S: Scale> Workspace<S> {
    // Room for all that a program takes. What it holds at first says nothing.
    pub fn new(heap: Global) -> Result<Workspace<S>, AllocError>
        ensures { IfOk result Roomy }
    {
        Ok(Workspace {
            edges: copies(heap, Edge { from: 0, to: 0 }, EDGES)?,
            fixed: copies(heap, S::loose(), FIXED)?,
            tests: copies(heap, blank_test(), TESTS)?,
            conditions: copies(heap, blank_condition(), CONDITIONS)?,
            constraints: copies(heap, blank_constraint(), CONSTRAINTS)?,
            rules: copies(heap, blank_rule(), RULES)?,
            steps: copies(heap, blank_step(), STEPS)?,
            facts: copies(heap, blank_fact(), FACTS)?,
        })
    }

    // Lends the room as tables without records, for a file to be read into. What it holds afterwards is left open.
    pub fn tables(&mut self) -> Tables<'_, S>
        ensures { Lent self.old result }
    {
        Tables {
            edges: Shelf::over(&mut self.edges),
            fixed: Shelf::over(&mut self.fixed),
            tests: Shelf::over(&mut self.tests),
            conditions: Shelf::over(&mut self.conditions),
            constraints: Shelf::over(&mut self.constraints),
            rules: Shelf::over(&mut self.rules),
            steps: Shelf::over(&mut self.steps),
            facts: &mut self.facts,
        }
    }
}

// Blank records, to fill the room with. They are no defaults of their types: a test or a rule with numbers that nobody
// chose means nothing.
fn blank_test<S: Scale>() -> Test<S> {
    Test {
        label: 0,
        bound: S::loose(),
    }
}

fn blank_condition() -> Condition {
    Condition {
        kind: Kind::Test,
        a: 0,
        b: 0,
    }
}

fn blank_constraint() -> Constraint {
    Constraint {
        head: 0,
        body: Body { first: 0, count: 0 },
    }
}

fn blank_rule() -> Rule {
    Rule {
        target: 0,
        delay: 0,
        onto: Some(0),
        along: Some(0),
        source: Some(0),
        body: Body { first: 0, count: 0 },
        formula: 0,
    }
}

fn blank_step<S: Scale>() -> Stair<S> {
    Stair {
        formula: 0,
        share: 0,
        bound: S::loose(),
    }
}

fn blank_fact<S: Scale>() -> Fact<S> {
    Fact {
        component: 0,
        label: 0,
        bound: S::loose(),
        from: 0,
        to: 0,
    }
}

// As many copies of a value. Mapped, and not by `vec!`, whose contract speaks of clones where the type is a parameter.
pub fn copies<T: Copy>(heap: Global, x: T, n: usize) -> Result<Vec<T>, AllocError>
    ensures { IfOk result (λ v. v.items ≡ replicate n x) }
{
    (0..n).map(|_i| x).collect(heap)
}

// The front of a table: its first n records, or all if there are fewer. For a table that is lent without a count of its
// own; one with a count is a `Shelf`, whose `records` gives the same.
pub fn front<T>(table: &[T], n: usize) -> &[T]
    ensures { result.now ≡ take n table.now }
{
    table.get(..n).unwrap_or(table)
}

// What a file describes: a house, and the book of its stairs under its quorum.
#[derive(Drop)]
pub struct Described<'a, S> {
    pub house: House<'a, S>,
    pub book: Quorum<Stairs<'a, S>>,
}

// What the records that were read describe, with these sizes and this quorum. None where the quorum is above 200.
pub fn describe<'a, S: Scale>(
    sizes: Sizes,
    quorum: u8,
    tables: &'a Tables<'_, S>,
) -> Option<Described<'a, S>>
    ensures { DescribedBy sizes quorum tables.now result }
{
    let stairs = Stairs::over(tables.steps.records());
    let book = Quorum::new(quorum, stairs).ok()?;
    let house = house_of(sizes, tables);
    Some(Described { house, book })
}

// The house of these sizes whose tables are the records that were read.
pub fn house_of<'a, S: Scale>(sizes: Sizes, tables: &'a Tables<'_, S>) -> House<'a, S>
    ensures { Housed sizes tables.now result }
{
    House {
        sizes,
        edges: tables.edges.records(),
        fixed: tables.fixed.records(),
        tests: tables.tests.records(),
        conditions: tables.conditions.records(),
        constraints: tables.constraints.records(),
        rules: tables.rules.records(),
    }
}
