// Entering the records of a file into the tables that the caller lends.
//
// A record goes behind those of its table, in the order in which they are entered. A fixed bound goes to the place of its component and label, which has to be loose still.
#![tactic(auto)]

ghost use Rattle.std.specs.Prelude.{◌≡◌, true};
ghost use Rattle.points.specs.Points.{Iff, Loose};
ghost use Rattle.record_entry.specs.Entries.{Lent, OpenPlace, LayDoes, EnterDoes};
ghost use Rattle.record_entry.specs.declared.EntryFault.TheVariants.{Plan as PlanCase};

use book::Stair;
use house::{Condition, Constraint, Edge, Fact, Rule, Sizes, Test};
use plan::{Draft, Refusal};
use record_line::Record;
use scale::Scale;
pub use shelves::Shelf;

mod shelves;

// The tables that a file is read into, lent, since the caller keeps the memory. The plan counts the facts.
#[derive(Drop)]
pub struct Tables<'a, S> {
    pub edges: Shelf<'a, Edge>,
    pub fixed: Shelf<'a, S>,
    pub tests: Shelf<'a, Test<S>>,
    pub conditions: Shelf<'a, Condition>,
    pub constraints: Shelf<'a, Constraint>,
    pub rules: Shelf<'a, Rule>,
    pub steps: Shelf<'a, Stair<S>>,
    pub facts: &'a mut [Fact<S>],
}

// Why a record is not entered.
#[derive(Clone, Copy, PartialEq, Eq, Debug)]
pub enum EntryFault {
    // Its table has no space, or the place of a fixed bound is outside the house or its table, or is no longer loose.
    House,
    // The plan does not file the fact.
    Plan(Refusal),
}

impl From<Refusal> for EntryFault {
    ghost from_gives = { λ x r. r ≡ PlanCase x };

    fn from(value: Refusal) -> EntryFault {
        EntryFault::Plan(value)
    }
}

// The place of a fixed bound, if that is in the house and in the table, and loose still.
fn open_place<S: Scale>(fixed: &Shelf<S>, sizes: Sizes, component: u16, label: u8) -> Option<usize>
    ensures { OpenPlace S.Scale.size S.Scale.has sizes component label fixed.now.table.now result }
{
    let place = sizes.fixed_place(component, label);
    let bound = fixed.table.get(place)?;
    let in_house = sizes.has_component(component) && label < sizes.fixed;
    (in_house && bound.is_loose()).then_some(place)
}

// Lays a fixed bound on its place, if that can take one.
fn lay<S: Scale>(
    fixed: &mut Shelf<S>,
    sizes: Sizes,
    component: u16,
    label: u8,
    bound: S,
) -> Result<(), EntryFault>
    ensures does { LayDoes S.Scale.size S.Scale.has sizes component label bound fixed.old.table.now result fixed.new.table.now }
    ensures count { fixed.new.count ≡ fixed.old.count }
    ensures lent { fixed.new.table.ghost_name ≡ fixed.old.table.ghost_name }
{
    let Some(place) = open_place(fixed, sizes, component, label) else {
        return Err(EntryFault::House);
    };
    // By index: after a loan of the table, as by `get_mut`, a proof no longer knows what it holds.
    fixed.table[place] = bound;
    Ok(())
}

// Enters a record: it goes behind those of its table, a fixed bound to its place, and a fact through the plan. Everything
// else stays. The record of the sizes is in no table.
pub fn enter<S: Scale>(
    record: Record<S>,
    sizes: Sizes,
    tables: &mut Tables<S>,
    draft: &mut Draft,
) -> Result<(), EntryFault>
    ensures does { EnterDoes S.Scale.size S.Scale.has sizes «record» tables.old draft.old result tables.new draft.new }
    ensures lent { Lent tables.old tables.new }
{
    match record {
        Record::Sizes { .. } => Ok(()),
        Record::Edge(edge) => tables.edges.put(edge),
        Record::Fixed {
            component,
            label,
            bound,
        } => lay(&mut tables.fixed, sizes, component, label, bound),
        Record::Test(test) => tables.tests.put(test),
        Record::Condition(condition) => tables.conditions.put(condition),
        Record::Constraint(constraint) => tables.constraints.put(constraint),
        Record::Rule(rule) => tables.rules.put(rule),
        Record::Step(step) => tables.steps.put(step),
        Record::Fact(fact) => Ok(draft.file(sizes, tables.facts, fact)?),
    }
}
