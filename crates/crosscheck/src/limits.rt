// Shapes at a limit of a house or of the programs, and just past it.
use super::dice::Dice;
use super::files::Shape;

// What is at its limit.
#[derive(Clone, Copy)]
enum Limit {
    Nodes,
    Edges,
    Fixed,
    Moving,
    Last,
    Quorum,
    Tests,
    Conditions,
    Constraints,
    Rules,
    Stairs,
    Facts,
    Cells,
}

const ALL: [Limit; 13] = [
    Limit::Nodes,
    Limit::Edges,
    Limit::Fixed,
    Limit::Moving,
    Limit::Last,
    Limit::Quorum,
    Limit::Tests,
    Limit::Conditions,
    Limit::Constraints,
    Limit::Rules,
    Limit::Stairs,
    Limit::Facts,
    Limit::Cells,
];

// How many such shapes there are: for each limit one at it, and one past it.
pub const LIMITS: usize = 2 * ALL.len();

// A house of two nodes and a line, to start from.
fn plain() -> Shape {
    Shape {
        nodes: 2,
        edges: 1,
        fixed: 1,
        moving: 1,
        last: 1,
        quorum: 0,
        fixed_bounds: 2,
        tests: 4,
        conditions: 2,
        constraints: 1,
        rules: 1,
        stairs: 2,
        formulas: 1,
        facts: 2,
    }
}

// One of the shapes by its number: even ones are at a limit, odd ones past it. By a number, since the files of a run take
// the shapes in turn.
pub fn shape_at(dice: &mut Dice, which: usize) -> Shape {
    let mut shape = plain();
    let past = which % 2;
    match ALL.get(which / 2).copied().unwrap_or(Limit::Cells) {
        Limit::Nodes => shape.nodes = 200 + past,
        Limit::Edges => {
            shape.nodes = dice.between(25, 60);
            shape.edges = 600 + past;
        }
        Limit::Fixed => shape.fixed = 16 + past,
        Limit::Moving => shape.moving = 8 + past,
        Limit::Last => shape.last = 63 + past,
        Limit::Quorum => shape.quorum = 200 + past,
        Limit::Tests => shape.tests = 64 + past,
        Limit::Conditions => shape.conditions = 64 + past,
        Limit::Constraints => shape.constraints = 64 + past,
        Limit::Rules => shape.rules = 64 + past,
        Limit::Stairs => {
            shape.stairs = 256 + past;
            shape.formulas = 256;
        }
        Limit::Facts => shape.facts = 1000 + past,
        Limit::Cells => {
            shape.nodes = 10 + past;
            shape.edges = 6;
            shape.moving = 8;
            shape.last = 63;
        }
    }
    shape
}
