// A lawful house to begin with, and a book for it.
ghost use Rattle.std.specs.Prelude.{◌≡◌, ℕ, nat_lt};
ghost use Rattle.std.proofs.Common.{rules};

use book::Book;
use house::{Body, Condition, Constraint, Edge, House, Kind, Rule, Sizes, Test};
use scale::{Scale, Thousandths};

// A book of so many formulas, each of which says loose.
#[derive(Clone, Copy)]
pub struct Blank {
    pub formulas: u16,
}

impl Book<Thousandths> for Blank {
    ghost formulas = { λ b. b.formulas };

    ghost says = { λ b f x y p. nat_lt p 1001 };

    ghost narrows = { Prim.search rules };

    fn count(&self) -> u16 {
        self.formulas
    }

    fn answer(&self, _f: u16, _x: u16, _y: u16) -> Thousandths {
        Thousandths::loose()
    }
}

// How many records of each table are in use. Arrays with a length beside: a test changes one record by its place, which a
// proof allows in an array and not in a list of any length.
#[derive(Clone, Copy)]
pub struct Lengths {
    pub edges: usize,
    pub fixed: usize,
    pub tests: usize,
    pub conditions: usize,
    pub constraints: usize,
    pub rules: usize,
}

// The sizes of a house, and its tables with room for one record too many.
#[derive(Clone, Copy)]
pub struct Tables {
    pub sizes: Sizes,
    pub lengths: Lengths,
    pub edges: [Edge; 3],
    pub fixed: [Thousandths; 6],
    pub tests: [Test<Thousandths>; 65],
    pub conditions: [Condition; 65],
    pub constraints: [Constraint; 65],
    pub rules: [Rule; 65],
}

// How large the house is: three nodes with one fixed label, 0, and one moving label, 1.
fn small() -> Sizes {
    Sizes {
        nodes: 3,
        edges: 2,
        fixed: 1,
        moving: 1,
        last: 5,
    }
}

// How much of the tables is in use.
fn in_use() -> Lengths {
    Lengths {
        edges: 2,
        fixed: 5,
        tests: 2,
        conditions: 4,
        constraints: 1,
        rules: 1,
    }
}

// The constraint of the house.
fn one_constraint() -> Constraint {
    let body = Body { first: 0, count: 2 };
    Constraint { head: 1, body }
}

// The rule of the house.
fn one_rule() -> Rule {
    Rule {
        target: 1,
        delay: 1,
        onto: None,
        along: Some(0),
        source: Some(3),
        body: Body { first: 2, count: 0 },
        formula: 1,
    }
}

// A condition of this kind.
fn made_of(kind: Kind, a: u8, b: u8) -> Condition {
    Condition { kind, a, b }
}

// A lawful house.
pub fn lawful() -> Tables {
    let bound = Thousandths::loose();
    let mut tables = Tables {
        sizes: small(),
        lengths: in_use(),
        edges: [
            Edge { from: 0, to: 1 },
            Edge { from: 1, to: 0 },
            Edge { from: 0, to: 1 },
        ],
        fixed: [bound; 6],
        tests: [Test { label: 0, bound }; 65],
        conditions: [made_of(Kind::Test, 0, 9); 65],
        constraints: [one_constraint(); 65],
        rules: [one_rule(); 65],
    };
    tables.tests[1] = Test {
        label: 1,
        bound: Thousandths::none(),
    };
    tables.conditions[1] = made_of(Kind::Not, 0, 9);
    tables.conditions[2] = made_of(Kind::Both, 0, 1);
    tables.conditions[3] = made_of(Kind::Either, 2, 2);
    tables
}

// The house of these tables.
pub fn house(tables: &Tables) -> House<'_, Thousandths> {
    House {
        sizes: tables.sizes,
        edges: &tables.edges[0..tables.lengths.edges.min(3)],
        fixed: &tables.fixed[0..tables.lengths.fixed.min(6)],
        tests: &tables.tests[0..tables.lengths.tests.min(65)],
        conditions: &tables.conditions[0..tables.lengths.conditions.min(65)],
        constraints: &tables.constraints[0..tables.lengths.constraints.min(65)],
        rules: &tables.rules[0..tables.lengths.rules.min(65)],
    }
}
