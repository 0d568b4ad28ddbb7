// One record of a record file: sixteen bytes, of which the first is a letter.
//
// A letter names the bytes that follow it. Numbers have their high byte first, and a byte without a name is 0.
#![tactic(auto)]

ghost use Rattle.std.specs.Prelude.{◌≡◌};
ghost use Rattle.record_line.specs.Lines.{Bounded, Parsed};
ghost use Rattle.record_line.specs.declared.LineFault.TheVariants.{Scale as ScaleCase};

use book::Stair;
use fields::{condition, constraint, edge, fact, rule, step, test};
use house::{Condition, Constraint, Edge, Fact, Rule, Test};
use scale::{NotABound, Recorded};
use shape::has_shape;

mod fields;
mod shape;

// What a record says.
#[derive(Drop)]
pub enum Record<S> {
    // S: the sizes without the number of edges, and the quorum.
    Sizes {
        nodes: u16,
        moving: u8,
        fixed: u8,
        last: u8,
        quorum: u8,
    },
    // E
    Edge(Edge),
    // X: the bound of a fixed label of a component.
    Fixed {
        component: u16,
        label: u8,
        bound: S,
    },
    // T
    Test(Test<S>),
    // C
    Condition(Condition),
    // K
    Constraint(Constraint),
    // R
    Rule(Rule),
    // Q
    Step(Stair<S>),
    // F
    Fact(Fact<S>),
}

// Why sixteen bytes are no record.
#[derive(Clone, Copy, PartialEq, Eq, Debug)]
pub enum LineFault {
    // An unknown letter, a byte without a name that is not 0, or a quorum above 200.
    Bytes,
    // Four bytes that are no bound.
    Scale(NotABound),
}

impl From<NotABound> for LineFault {
    ghost from_gives = { λ x r. r ≡ ScaleCase x };

    fn from(value: NotABound) -> LineFault {
        LineFault::Scale(value)
    }
}

// The bound in the bytes 4 to 7.
fn bound<S: Recorded>(line: &[u8; 16]) -> Result<S, LineFault>
    ensures { Bounded S.Recorded.form line.now result }
{
    let [_, _, _, _, b0, b1, b2, b3, ..] = *line;
    Ok(S::from_bytes([b0, b1, b2, b3])?)
}

// The record that these bytes are. Bytes that have not the shape of a record are refused before four bytes that are no
// bound.
pub fn parse<S: Recorded>(line: &[u8; 16]) -> Result<Record<S>, LineFault>
    ensures { Parsed S.Recorded.form line.now result }
{
    if !has_shape(line) {
        return Err(LineFault::Bytes);
    }
    match *line {
        [b'S', n0, n1, moving, fixed, last, quorum, ..] => Ok(Record::Sizes {
            nodes: u16::from_be_bytes([n0, n1]),
            moving,
            fixed,
            last,
            quorum,
        }),
        [b'E', ..] => Ok(Record::Edge(edge(line))),
        [b'X', c0, c1, label, ..] => Ok(Record::Fixed {
            component: u16::from_be_bytes([c0, c1]),
            label,
            bound: bound(line)?,
        }),
        [b'T', ..] => Ok(Record::Test(test(line, bound(line)?))),
        [b'C', ..] => Ok(Record::Condition(condition(line))),
        [b'K', ..] => Ok(Record::Constraint(constraint(line))),
        [b'R', ..] => Ok(Record::Rule(rule(line))),
        [b'Q', ..] => Ok(Record::Step(step(line, bound(line)?))),
        [b'F', ..] => Ok(Record::Fact(fact(line, bound(line)?))),
        _ => Err(LineFault::Bytes),
    }
}
