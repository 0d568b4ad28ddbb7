// The refusals, by their number and place, and none for an accepted house.
use super::tables::{Blank, Lengths, Tables, house, lawful};
use examining::{TableName, examine};
use house::{Body, Condition, Edge, Kind, Sizes};
use scale::Thousandths;

fn verdict(tables: &Tables) -> Option<(u8, usize)> {
    let defect = examine(&house(tables), &Blank { formulas: 2 }).err()?;
    Some((defect.number(), defect.place()))
}

fn sized(sizes: Sizes) -> Option<(u8, usize)> {
    verdict(&Tables { sizes, ..lawful() })
}

fn filled(lengths: Lengths) -> Option<(u8, usize)> {
    verdict(&Tables {
        lengths,
        ..lawful()
    })
}

// The second edge leads so.
fn joined(from: u16, to: u16) -> Option<(u8, usize)> {
    let mut tables = lawful();
    tables.edges[1] = Edge { from, to };
    verdict(&tables)
}

// The condition at place 2 is this one.
fn conditioned(kind: Kind, a: u8, b: u8) -> Option<(u8, usize)> {
    let mut tables = lawful();
    tables.conditions[2] = Condition { kind, a, b };
    verdict(&tables)
}

// The constraint has this head and body.
fn constrained(head: u8, first: u8, count: u8) -> Option<(u8, usize)> {
    let mut tables = lawful();
    tables.constraints[0].head = head;
    tables.constraints[0].body = Body { first, count };
    verdict(&tables)
}

// The rule has this target and delay.
fn ruled(target: u8, delay: u8) -> Option<(u8, usize)> {
    let mut tables = lawful();
    tables.rules[0].target = target;
    tables.rules[0].delay = delay;
    verdict(&tables)
}

// The rule has these conditions.
fn ruled_by(onto: Option<u8>, along: Option<u8>, source: Option<u8>) -> Option<(u8, usize)> {
    let mut tables = lawful();
    tables.rules[0].onto = onto;
    tables.rules[0].along = along;
    tables.rules[0].source = source;
    verdict(&tables)
}

// The rule has this body and formula.
fn ruled_with(first: u8, count: u8, formula: u8) -> Option<(u8, usize)> {
    let mut tables = lawful();
    tables.rules[0].body = Body { first, count };
    tables.rules[0].formula = formula;
    verdict(&tables)
}

#[test]
fn sizes(rt: HostRuntime) {
    let sizes = lawful().sizes;
    assert_eq!(rt; sized(sizes), None);
    assert_eq!(rt; sized(Sizes { nodes: 0, ..sizes }), Some((1, 0)));
    assert_eq!(rt;
        sized(Sizes {
            nodes: 200,
            ..sizes
        }),
        Some((2, 1))
    );
    assert_eq!(rt;
        sized(Sizes {
            nodes: 201,
            ..sizes
        }),
        Some((1, 0))
    );
    assert_eq!(rt;
        sized(Sizes {
            edges: 600,
            ..sizes
        }),
        Some((2, 0))
    );
    assert_eq!(rt;
        sized(Sizes {
            edges: 601,
            ..sizes
        }),
        Some((1, 1))
    );
    assert_eq!(rt; sized(Sizes { fixed: 16, ..sizes }), Some((2, 1)));
    assert_eq!(rt; sized(Sizes { fixed: 17, ..sizes }), Some((1, 2)));
    assert_eq!(rt; sized(Sizes { moving: 0, ..sizes }), Some((1, 3)));
    assert_eq!(rt; sized(Sizes { moving: 8, ..sizes }), None);
    assert_eq!(rt; sized(Sizes { moving: 9, ..sizes }), Some((1, 3)));
    assert_eq!(rt; sized(Sizes { last: 63, ..sizes }), None);
    assert_eq!(rt; sized(Sizes { last: 64, ..sizes }), Some((1, 4)));
}

// So many records of this table are in use.
fn long(table: TableName, count: usize) -> Option<(u8, usize)> {
    let mut lengths = lawful().lengths;
    match table {
        TableName::Edges => lengths.edges = count,
        TableName::FixedBounds => lengths.fixed = count,
        TableName::Tests => lengths.tests = count,
        TableName::Conditions => lengths.conditions = count,
        TableName::Constraints => lengths.constraints = count,
        TableName::Rules => lengths.rules = count,
    }
    filled(lengths)
}

#[test]
fn lengths(rt: HostRuntime) {
    assert_eq!(rt; long(TableName::Edges, 1), Some((2, 0)));
    assert_eq!(rt; long(TableName::Edges, 3), Some((2, 0)));
    assert_eq!(rt; long(TableName::FixedBounds, 4), Some((2, 1)));
    assert_eq!(rt; long(TableName::FixedBounds, 6), Some((2, 1)));
    assert_eq!(rt; long(TableName::Tests, 64), None);
    assert_eq!(rt; long(TableName::Tests, 65), Some((2, 2)));
    assert_eq!(rt; long(TableName::Conditions, 64), None);
    assert_eq!(rt; long(TableName::Conditions, 65), Some((2, 3)));
    assert_eq!(rt; long(TableName::Constraints, 64), None);
    assert_eq!(rt; long(TableName::Constraints, 65), Some((2, 4)));
    assert_eq!(rt; long(TableName::Rules, 64), None);
    assert_eq!(rt; long(TableName::Rules, 65), Some((2, 5)));
}

#[test]
fn edges_bounds_and_tests(rt: HostRuntime) {
    assert_eq!(rt; joined(2, 2), None);
    assert_eq!(rt; joined(0, 1), Some((3, 1)));
    assert_eq!(rt; joined(3, 0), Some((3, 1)));
    assert_eq!(rt; joined(0, 3), Some((3, 1)));
    let mut tables = lawful();
    tables.sizes.edges = 3;
    tables.lengths.edges = 3;
    tables.lengths.fixed = 6;
    assert_eq!(rt; verdict(&tables), Some((3, 2)));
    tables.edges[2].from = 2;
    assert_eq!(rt; verdict(&tables), None);
    tables.fixed[5] = Thousandths::none();
    assert_eq!(rt; verdict(&tables), Some((4, 5)));
    let mut tables = lawful();
    tables.tests[1].label = 2;
    assert_eq!(rt; verdict(&tables), Some((5, 1)));
}

#[test]
fn conditions_and_constraints(rt: HostRuntime) {
    assert_eq!(rt; conditioned(Kind::Test, 0, 9), None);
    assert_eq!(rt; conditioned(Kind::Test, 1, 0), Some((6, 2)));
    assert_eq!(rt; conditioned(Kind::Test, 2, 0), Some((6, 2)));
    assert_eq!(rt; conditioned(Kind::Not, 1, 9), None);
    assert_eq!(rt; conditioned(Kind::Not, 2, 0), Some((6, 2)));
    assert_eq!(rt; conditioned(Kind::Both, 2, 0), Some((6, 2)));
    assert_eq!(rt; conditioned(Kind::Both, 1, 2), Some((6, 2)));
    assert_eq!(rt; conditioned(Kind::Either, 1, 1), None);
    assert_eq!(rt; conditioned(Kind::Either, 1, 2), Some((6, 2)));
    assert_eq!(rt; conditioned(Kind::from(4), 0, 0), Some((6, 2)));
    assert_eq!(rt; constrained(1, 2, 0), None);
    assert_eq!(rt; constrained(0, 0, 0), Some((7, 0)));
    assert_eq!(rt; constrained(2, 0, 0), Some((7, 0)));
    assert_eq!(rt; constrained(1, 3, 0), Some((7, 0)));
    assert_eq!(rt; constrained(1, 1, 2), Some((7, 0)));
    assert_eq!(rt; constrained(1, 255, 255), Some((7, 0)));
}

#[test]
fn rules(rt: HostRuntime) {
    assert_eq!(rt; ruled(1, 0), Some((8, 0)));
    assert_eq!(rt; ruled(1, 63), None);
    assert_eq!(rt; ruled(1, 64), Some((8, 0)));
    assert_eq!(rt; ruled(0, 1), Some((8, 0)));
    assert_eq!(rt; ruled(2, 1), Some((8, 0)));
    assert_eq!(rt; ruled_by(None, None, None), None);
    assert_eq!(rt; ruled_by(Some(4), Some(0), Some(0)), Some((8, 0)));
    assert_eq!(rt; ruled_by(Some(0), Some(254), Some(0)), Some((8, 0)));
    assert_eq!(rt; ruled_by(Some(3), Some(3), Some(4)), Some((8, 0)));
    assert_eq!(rt; ruled_with(1, 1, 1), None);
    assert_eq!(rt; ruled_with(1, 2, 1), Some((8, 0)));
    assert_eq!(rt; ruled_with(3, 0, 1), Some((8, 0)));
    assert_eq!(rt; ruled_with(1, 1, 2), Some((8, 0)));
}

// All of one number come before any of the next.
#[test]
fn order(rt: HostRuntime) {
    let mut tables = lawful();
    tables.rules[0].delay = 0;
    tables.edges[1] = tables.edges[0];
    assert_eq!(rt; verdict(&tables), Some((3, 1)));
    let mut tables = lawful();
    tables.constraints[0].head = 0;
    tables.tests[1].label = 2;
    assert_eq!(rt; verdict(&tables), Some((5, 1)));
}
