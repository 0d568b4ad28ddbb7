// The records of the tables, each from the bytes that its letter names.
ghost use Rattle.std.specs.Prelude.{◌≡◌};
ghost use Rattle.house.specs.Kinds.{kind_of};
ghost use Rattle.record_line.specs.Lines.{byte, word, named_condition};

use book::Stair;
use house::{Body, Condition, Constraint, Edge, Fact, Kind, Rule, Test};

// What stands in a rule in the place of a condition where there is none.
const NO_CONDITION: u8 = 255;

// An edge, of E.
pub(super) fn edge(line: &[u8; 16]) -> Edge
    ensures from { result.from ≡ word line.now 1 }
    ensures to { result.to ≡ word line.now 3 }
{
    let [_, f0, f1, t0, t1, ..] = *line;
    Edge {
        from: u16::from_be_bytes([f0, f1]),
        to: u16::from_be_bytes([t0, t1]),
    }
}

// A test of this bound, of T.
pub(super) fn test<S>(line: &[u8; 16], bound: S) -> Test<S>
    ensures label { result.label ≡ byte line.now 1 }
    ensures bound { result.bound ≡ bound }
{
    let [_, label, ..] = *line;
    Test { label, bound }
}

// A condition, of C.
pub(super) fn condition(line: &[u8; 16]) -> Condition
    ensures kind { result.kind ≡ kind_of (byte line.now 1) }
    ensures a { result.a ≡ byte line.now 2 }
    ensures b { result.b ≡ byte line.now 3 }
{
    let [_, kind, a, b, ..] = *line;
    let kind = Kind::from(kind);
    Condition { kind, a, b }
}

// A constraint, of K.
pub(super) fn constraint(line: &[u8; 16]) -> Constraint
    ensures head { result.head ≡ byte line.now 1 }
    ensures first { result.body.first ≡ byte line.now 2 }
    ensures count { result.body.count ≡ byte line.now 3 }
{
    let [_, head, first, count, ..] = *line;
    let body = Body { first, count };
    Constraint { head, body }
}

// The condition that a byte of a rule names, or none.
fn named(number: u8) -> Option<u8>
    ensures { result ≡ named_condition number }
{
    (number != NO_CONDITION).then_some(number)
}

// A rule, of R.
pub(super) fn rule(line: &[u8; 16]) -> Rule
    ensures target { result.target ≡ byte line.now 1 }
    ensures delay { result.delay ≡ byte line.now 2 }
    ensures onto { result.onto ≡ named_condition (byte line.now 3) }
    ensures along { result.along ≡ named_condition (byte line.now 4) }
    ensures source { result.source ≡ named_condition (byte line.now 5) }
    ensures first { result.body.first ≡ byte line.now 6 }
    ensures count { result.body.count ≡ byte line.now 7 }
    ensures formula { result.formula ≡ byte line.now 8 }
{
    let [
        _,
        target,
        delay,
        onto,
        along,
        source,
        first,
        count,
        formula,
        ..
    ] = *line;
    Rule {
        target,
        delay,
        onto: named(onto),
        along: named(along),
        source: named(source),
        body: Body { first, count },
        formula,
    }
}

// A step of this bound, of Q.
pub(super) fn step<S>(line: &[u8; 16], bound: S) -> Stair<S>
    ensures formula { result.formula ≡ byte line.now 1 }
    ensures share { result.share ≡ word line.now 2 }
    ensures bound { result.bound ≡ bound }
{
    let [_, formula, s0, s1, ..] = *line;
    Stair {
        formula,
        share: u16::from_be_bytes([s0, s1]),
        bound,
    }
}

// A fact of this bound, of F.
pub(super) fn fact<S>(line: &[u8; 16], bound: S) -> Fact<S>
    ensures component { result.component ≡ word line.now 1 }
    ensures label { result.label ≡ byte line.now 3 }
    ensures bound { result.bound ≡ bound }
    ensures from { result.from ≡ byte line.now 8 }
    ensures to { result.to ≡ byte line.now 9 }
{
    let [_, c0, c1, label, _, _, _, _, from, to, ..] = *line;
    Fact {
        component: u16::from_be_bytes([c0, c1]),
        label,
        bound,
        from,
        to,
    }
}
