// A building as a record file gives it. Every number is kept as it was read.
use super::refusals::{Refusal, Stop};
use super::sets::{Kind, Set};
use std::alloc::{AllocError, Global};
use std::fmt;
use std::ops::{Range, RangeInclusive};

// A cell of a course by its name: a moving label of a component at an hour.
#[derive(Clone, Copy, PartialEq, Eq, Debug)]
pub struct Cell {
    pub hour: usize,
    pub component: usize,
    pub label: usize,
}

impl fmt::Display for Cell {
    fn fmt<W: fmt::Write>(&self, f: &mut fmt::Formatter<W>) -> fmt::Result {
        let Cell {
            hour,
            component,
            label,
        } = *self;
        write!(f, "{hour} {component} {label}")
    }
}

// A line that feeds the node `to` from the node `from`.
#[derive(Clone, Copy, PartialEq, Eq, Debug)]
pub struct Edge {
    pub from: usize,
    pub to: usize,
}

// A test of a label, fixed or moving.
#[derive(Clone, Copy, PartialEq, Eq, Debug)]
pub struct Test {
    pub label: usize,
    pub bound: Set,
}

impl Test {
    // Whether the test is met where its label has this bound.
    pub(crate) fn met_by(&self, seen: &Set) -> bool {
        !self.bound.is_empty() && seen.within(&self.bound)
    }
}

// What is asked of a component's fixed labels. Conditions are numbered, as tests are.
#[derive(Clone, Copy, PartialEq, Eq, Debug)]
pub enum Condition {
    // A test is met.
    Met(usize),
    // An earlier condition does not hold.
    Not(usize),
    // Both of two earlier conditions hold.
    Both(usize, usize),
    // At least one of two earlier conditions holds.
    Either(usize, usize),
    // A record can name a kind that is none, by this number. `examine` refuses it.
    Unknown(usize),
}

// A run of tests, all of which are to be met.
#[derive(Clone, Copy, PartialEq, Eq, Debug)]
pub struct Body {
    pub first: usize,
    pub count: usize,
}

impl Body {
    // The numbers of the tests.
    pub(crate) fn tests(&self) -> Range<usize> {
        self.first..self.first.saturating_add(self.count)
    }
}

// Where the body is met, the label of the head test is within the head's bound.
#[derive(Clone, Copy, PartialEq, Eq, Debug)]
pub struct Constraint {
    pub head: usize,
    pub body: Body,
}

// Neighbours press on the label `target` of a node, `delay` hours later. Of the conditions `onto` is on the node, `along`
// on the edge and `source` on the neighbour; where there is none, any will do.
#[derive(Clone, Copy, PartialEq, Eq, Debug)]
pub struct Rule {
    pub target: usize,
    pub delay: usize,
    pub onto: Option<usize>,
    pub along: Option<usize>,
    pub source: Option<usize>,
    pub body: Body,
    pub formula: usize,
}

// A formula says the bound of each of its stairs that is reached.
#[derive(Clone, Copy, PartialEq, Eq, Debug)]
pub struct Stair {
    pub formula: usize,
    pub share: usize,
    pub bound: Set,
}

impl Stair {
    // Whether x of y neighbours are the stair's share of them or more. The share is in thousandths.
    pub(crate) fn reached(&self, x: usize, y: usize) -> bool {
        x.saturating_mul(1000) >= self.share.saturating_mul(y)
    }
}

// What is known of a label of a component from one hour to another, both included.
#[derive(Clone, Copy, PartialEq, Eq, Debug)]
pub struct Fact {
    pub component: usize,
    pub label: usize,
    pub bound: Set,
    pub from: usize,
    pub to: usize,
}

impl Fact {
    // The hours that the fact is of.
    pub(crate) fn hours(&self) -> RangeInclusive<usize> {
        self.from..=self.to
    }

    // The fact's cell at an hour.
    pub(crate) fn cell(&self, hour: usize) -> Cell {
        Cell {
            hour,
            component: self.component,
            label: self.label,
        }
    }

    // Whether the fact covers a cell.
    pub fn covers(&self, cell: Cell) -> bool {
        self.cell(cell.hour) == cell && self.hours().contains(&cell.hour)
    }
}

// The components are the nodes, then the edges. Labels below `fixed_labels` are fixed, and the `moving_labels` after them
// move by the hour. Hours are 0 to `last`.
#[derive(Drop)]
pub struct Network {
    pub kind: Kind,
    pub nodes: usize,
    pub fixed_labels: usize,
    pub moving_labels: usize,
    pub last: usize,
    pub quorum: usize,
    pub edges: Vec<Edge>,
    pub fixed: Vec<Set>,
    pub tests: Vec<Test>,
    pub conditions: Vec<Condition>,
    pub constraints: Vec<Constraint>,
    pub rules: Vec<Rule>,
    pub stairs: Vec<Stair>,
    pub facts: Vec<Fact>,
}

impl Network {
    // How many components there are.
    pub fn components(&self) -> usize {
        self.nodes.saturating_add(self.edges.len())
    }

    // One more than the last label.
    pub fn labels(&self) -> usize {
        self.fixed_labels.saturating_add(self.moving_labels)
    }

    // How many cells a course has.
    pub fn cells(&self) -> usize {
        let hours = self.last.saturating_add(1);
        let row = self.components().saturating_mul(self.moving_labels);
        hours.saturating_mul(row)
    }

    // Whether a label moves.
    pub fn moves(&self, label: usize) -> bool {
        self.fixed_labels <= label && label < self.labels()
    }

    // Whether there is such a cell.
    pub fn inside(&self, cell: Cell) -> bool {
        cell.hour <= self.last && cell.component < self.components() && self.moves(cell.label)
    }

    // Where a cell stands in a course.
    pub fn place(&self, cell: Cell) -> usize {
        let row = cell.hour.saturating_mul(self.components());
        let line = row.saturating_add(cell.component);
        let start = line.saturating_mul(self.moving_labels);
        start.saturating_add(cell.label.saturating_sub(self.fixed_labels))
    }

    // The cell at a place of a course.
    pub(crate) fn cell_at(&self, place: usize) -> Cell {
        let labels = self.moving_labels.max(1);
        let components = self.components().max(1);
        let row = place / labels;
        Cell {
            hour: row / components,
            component: row % components,
            label: self.fixed_labels.saturating_add(place % labels),
        }
    }

    // What a course has at a cell.
    pub(crate) fn seen(&self, course: &[Set], cell: Cell) -> Set {
        let set = course.get(self.place(cell));
        set.copied().unwrap_or(Set::empty())
    }

    // The course in which nothing is known.
    pub(crate) fn loosest(&self, heap: Global) -> Result<Vec<Set>, AllocError> {
        vec![in heap; self.kind.all(); self.cells()]
    }

    // The first cell of a course that has no point.
    pub(crate) fn first_void(&self, course: &[Set]) -> Option<Cell> {
        let place = course.iter().position(|set| set.is_empty())?;
        Some(self.cell_at(place))
    }

    // Where a fixed bound stands.
    pub fn fixed_place(&self, component: usize, label: usize) -> usize {
        let start = component.saturating_mul(self.fixed_labels);
        start.saturating_add(label)
    }

    // The fixed bound of a label.
    pub(crate) fn fixed_bound(&self, component: usize, label: usize) -> Set {
        let set = self.fixed.get(self.fixed_place(component, label));
        set.copied().unwrap_or(Set::empty())
    }

    // Whether a fact lies inside the building.
    pub fn holds_fact(&self, fact: &Fact) -> bool {
        self.inside(fact.cell(fact.to)) && fact.from <= fact.to
    }

    // Files a fact, if there is room for so many. The place is for a refusal to tell.
    pub(crate) fn file(&mut self, fact: Fact, room: usize, place: usize) -> Result<(), Stop> {
        if !self.holds_fact(&fact) {
            return Err(Refusal::FactOutside(place).into());
        }
        if self.facts.len() >= room {
            return Err(Refusal::FactsFull(place).into());
        }
        self.facts.push(fact)?;
        Ok(())
    }
}
