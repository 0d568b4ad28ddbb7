// The building of the tour: two switchboards that feed a lift.
use book::{Stair, Stairs};
use house::{Body, Condition, Edge, House, Kind, Rule, Sizes, Test};
use scale::{Scale, Thousandths};

// The nodes. The lines from the boards to the lift come after them.
pub const NORTH: u16 = 0;

pub const SOUTH: u16 = 1;

pub const LIFT: u16 = 2;

// The one fixed label: whether a part is served by others.
const SERVED: u8 = 0;

// The one moving label: supply, in thousandths of what the part needs.
pub const SUPPLY: u8 = 1;

// The hours are 0 to 2.
pub const LAST: u8 = 2;

// The tables of the house and of its book.
#[derive(Drop)]
pub struct Building {
    edges: [Edge; 2],
    fixed: [Thousandths; 5],
    tests: [Test<Thousandths>; 2],
    conditions: [Condition; 1],
    rules: [Rule; 1],
    steps: [Stair<Thousandths>; 1],
}

impl Building {
    // Where at least half of the boards are at 100 or less, the lift is at 200 or less an hour later.
    pub fn new() -> anyhow::Result<Building> {
        let loose = Thousandths::loose();
        let served = Thousandths::range(1000, 1000)?;
        Ok(Building {
            edges: [
                Edge {
                    from: NORTH,
                    to: LIFT,
                },
                Edge {
                    from: SOUTH,
                    to: LIFT,
                },
            ],
            fixed: [loose, loose, served, loose, loose],
            tests: [
                Test {
                    label: SERVED,
                    bound: served,
                },
                Test {
                    label: SUPPLY,
                    bound: Thousandths::range(0, 100)?,
                },
            ],
            conditions: [Condition {
                kind: Kind::Test,
                a: 0,
                b: 0,
            }],
            rules: [Rule {
                target: SUPPLY,
                delay: 1,
                onto: Some(0),
                along: None,
                source: None,
                body: Body { first: 1, count: 1 },
                formula: 0,
            }],
            steps: [Stair {
                formula: 0,
                share: 500,
                bound: Thousandths::range(0, 200)?,
            }],
        })
    }

    pub fn house(&self) -> House<'_, Thousandths> {
        House {
            sizes: Sizes {
                nodes: 3,
                edges: 2,
                fixed: 1,
                moving: 1,
                last: LAST,
            },
            edges: &self.edges,
            fixed: &self.fixed,
            tests: &self.tests,
            conditions: &self.conditions,
            constraints: &[],
            rules: &self.rules,
        }
    }

    pub fn book(&self) -> Stairs<'_, Thousandths> {
        Stairs::over(&self.steps)
    }
}
