// The examination of a house: eight checks in order, each over its places from the lowest on. The first place at which
// a check fails is the answer. Each check is a function, since each answers for a definition of its own: one that is passed
// what to ask would need a contract over that, and be no plainer.
ghost use Rattle.std.specs.Prelude.{◌≡◌, length, not, position};
ghost use Rattle.points.specs.Points.{void};
ghost use Rattle.examining.specs.Checks.{between, edge_passes, condition_passes, names_label_lem, joins_nodes_lem, tests_fixed_lem, tests_moving_lem, condition_kept, body_ends_lem, constraint_kept, names_condition_lem, rule_kept};
ghost use Rattle.examining.specs.Examine.{Found, Lowest, Examined, size_check, table_check, edge_check, fixed_check, test_check, condition_check, constraint_check, rule_check};
ghost use Rattle.examining.specs.Lawful.{AcceptedLaws};

use super::{Defect, Dimension, TableName, require};
use book::Book;
use house::{Body, Condition, Constraint, Edge, House, Kind, Rule, Sizes, Test};
use scale::Scale;

// The most tests, conditions, constraints or rules.
const RECORDS: usize = 64;

// Whether a size is at least `low` and at most `high`.
fn between(low: u16, size: u16, high: u16) -> bool
    ensures { result ≡ between low size high }
{
    low <= size && size <= high
}

// Whether the sizes are within their limits: nodes 1 to 200, edges up to 600, fixed labels up to 16, moving labels 1 to
// 8, and the last hour up to 63.
pub fn check_sizes(sizes: Sizes) -> Result<(), Defect>
    ensures { Found (size_check sizes) result }
{
    require(between(1, sizes.nodes, 200), Defect::Size(Dimension::Nodes))?;
    require(between(0, sizes.edges, 600), Defect::Size(Dimension::Edges))?;
    require(
        between(0, sizes.fixed as u16, 16),
        Defect::Size(Dimension::FixedLabels),
    )?;
    require(
        between(1, sizes.moving as u16, 8),
        Defect::Size(Dimension::MovingLabels),
    )?;
    require(
        between(0, sizes.last as u16, 63),
        Defect::Size(Dimension::LastHour),
    )?;
    Ok(())
}

// Whether the tables have the right lengths: as many edges as the sizes say, a bound for each fixed label of each
// component, and at most 64 records in the others.
fn check_tables<S: Scale>(house: &House<S>) -> Result<(), Defect>
    ensures { Found (table_check house.now) result }
{
    let edges = house.edges.len() == house.sizes.edges as usize;
    let fixed = house.fixed.len() == house.sizes.components() * house.sizes.fixed as usize;
    require(edges, Defect::Table(TableName::Edges))?;
    require(fixed, Defect::Table(TableName::FixedBounds))?;
    require(
        house.tests.len() <= RECORDS,
        Defect::Table(TableName::Tests),
    )?;
    require(
        house.conditions.len() <= RECORDS,
        Defect::Table(TableName::Conditions),
    )?;
    require(
        house.constraints.len() <= RECORDS,
        Defect::Table(TableName::Constraints),
    )?;
    require(
        house.rules.len() <= RECORDS,
        Defect::Table(TableName::Rules),
    )?;
    Ok(())
}

// Whether an edge leads from a node to a node.
fn joins_nodes(sizes: Sizes, edge: Edge) -> bool
    ensures { result ≡ joins_nodes_lem sizes edge }
{
    edge.from < sizes.nodes && edge.to < sizes.nodes
}

// The lowest edge that names no node, or repeats the pair of an edge before it. The order of the ends counts: (0, 1) and
// (1, 0) differ. Two loops over the edges themselves, left by a label: the project fixes this form here.
fn bad_edge(sizes: Sizes, edges: &[Edge]) -> Option<usize>
    ensures { Lowest (length edges.now) (edge_passes sizes edges.now) result }
{
    let bad = 'search: {
        for (at, edge) in edges.iter().enumerate() {
            if !joins_nodes(sizes, *edge) {
                break 'search Some(at);
            }
            for earlier in &edges[..at] {
                if earlier == edge {
                    break 'search Some(at);
                }
            }
        }
        None
    };
    bad
}

// Whether every edge leads from a node to a node and has a pair of its own.
fn check_edges(sizes: Sizes, edges: &[Edge]) -> Result<(), Defect>
    ensures { Found (edge_check sizes edges.now) result }
{
    bad_edge(sizes, edges).map_or(Ok(()), |at| Err(Defect::Edge { at }))
}

// The lowest fixed bound that is void.
fn bad_fixed<S: Scale>(fixed: &[S]) -> Option<usize>
    ensures { result ≡ position (λ bound. void S.Scale.size (S.Scale.has bound)) fixed.now }
{
    fixed.iter().position(|bound| bound.void())
}

// Whether no fixed bound is void.
fn check_fixed<S: Scale>(fixed: &[S]) -> Result<(), Defect>
    ensures { Found (fixed_check S.Scale.size S.Scale.has fixed.now) result }
{
    bad_fixed(fixed).map_or(Ok(()), |at| Err(Defect::Fixed { at }))
}

// Whether a label is fixed or moves.
fn names_label(sizes: Sizes, label: u8) -> bool
    ensures { result ≡ names_label_lem sizes label }
{
    (label as u16) < sizes.fixed as u16 + sizes.moving as u16
}

// The lowest test that is of no label.
fn bad_test<S: Scale>(sizes: Sizes, tests: &[Test<S>]) -> Option<usize>
    ensures { result ≡ position (λ test. not (names_label_lem sizes test.label)) tests.now }
{
    tests
        .iter()
        .position(|test| !names_label(sizes, test.label))
}

// Whether every test is of a label. Its bound may be void.
fn check_tests<S: Scale>(sizes: Sizes, tests: &[Test<S>]) -> Result<(), Defect>
    ensures { Found (test_check sizes tests.now) result }
{
    bad_test(sizes, tests).map_or(Ok(()), |at| Err(Defect::Test { at }))
}

// Whether there is a test of this number, and its label is fixed.
fn tests_fixed<S: Scale>(house: &House<S>, which: u8) -> bool
    ensures { result ≡ tests_fixed_lem house.now.sizes house.now.tests.now which }
{
    let sizes = house.sizes;
    let test = house.tests.get(which as usize);
    test.is_some_and(|test| test.label < sizes.fixed)
}

// Whether there is a test of this number, and its label moves.
fn tests_moving<S: Scale>(house: &House<S>, which: u8) -> bool
    ensures { result ≡ tests_moving_lem house.now.sizes house.now.tests.now which }
{
    let sizes = house.sizes;
    let test = house.tests.get(which as usize);
    test.is_some_and(|test| sizes.moves(test.label))
}

// Whether a condition keeps to its kind, with `at` conditions before it: a test is of a fixed label, and the other kinds
// name earlier conditions.
fn keeps_kind<S: Scale>(house: &House<S>, at: usize, condition: Condition) -> bool
    ensures { result ≡ condition_kept house.now.sizes house.now.tests.now at condition }
{
    let a = (condition.a as usize) < at;
    let b = (condition.b as usize) < at;
    match condition.kind {
        Kind::Test => tests_fixed(house, condition.a),
        Kind::Not => a,
        Kind::Both | Kind::Either => a && b,
        Kind::Unknown(_) => false,
    }
}

// The lowest condition that does not keep to its kind.
fn bad_condition<S: Scale>(house: &House<S>) -> Option<usize>
    ensures { Lowest (length house.now.conditions.now) (condition_passes house.now.sizes house.now.tests.now house.now.conditions.now) result }
{
    // A loop, since each condition is judged with its place: a proof over a chain with `enumerate` did not close.
    for (at, condition) in house.conditions.iter().enumerate() {
        if !keeps_kind(house, at, *condition) {
            return Some(at);
        }
    }
    None
}

// Whether every condition keeps to its kind.
fn check_conditions<S: Scale>(house: &House<S>) -> Result<(), Defect>
    ensures { Found (condition_check house.now.sizes house.now.tests.now house.now.conditions.now) result }
{
    bad_condition(house).map_or(Ok(()), |at| Err(Defect::Condition { at }))
}

// Whether a body ends among so many tests. An empty one begins there too.
fn body_ends(tests: usize, body: Body) -> bool
    ensures { result ≡ body_ends_lem tests body }
{
    body.first as usize + body.count as usize <= tests
}

// Whether the head of a constraint is a test of a moving label, and its body ends among the tests.
fn has_parts<S: Scale>(house: &House<S>, constraint: Constraint) -> bool
    ensures { result ≡ constraint_kept house.now.sizes house.now.tests.now constraint }
{
    tests_moving(house, constraint.head) && body_ends(house.tests.len(), constraint.body)
}

// The lowest constraint of which a part is not there.
fn bad_constraint<S: Scale>(house: &House<S>) -> Option<usize>
    ensures { result ≡ position (λ constraint. not (constraint_kept house.now.sizes house.now.tests.now constraint)) house.now.constraints.now }
{
    house
        .constraints
        .iter()
        .position(|constraint| !has_parts(house, *constraint))
}

// Whether every part of every constraint is there.
fn check_constraints<S: Scale>(house: &House<S>) -> Result<(), Defect>
    ensures { Found (constraint_check house.now.sizes house.now.tests.now house.now.constraints.now) result }
{
    bad_constraint(house).map_or(Ok(()), |at| Err(Defect::Constraint { at }))
}

// Whether a rule's condition is one of so many, if it has one.
fn names_condition(conditions: usize, condition: Option<u8>) -> bool
    ensures { result ≡ names_condition_lem conditions condition }
{
    condition.is_none_or(|number| (number as usize) < conditions)
}

// Whether every part of a rule is in its range: its target moves, its delay is 1 to 63, its conditions, its body and
// its formula are there.
fn in_range<S: Scale>(house: &House<S>, formulas: u16, rule: Rule) -> bool
    ensures { result ≡ rule_kept house.now.sizes (length house.now.tests.now) (length house.now.conditions.now) formulas rule }
{
    let conditions = house.conditions.len();
    let target = house.sizes.moves(rule.target);
    let delay = between(1, rule.delay as u16, 63);
    let onto = names_condition(conditions, rule.onto);
    let along = names_condition(conditions, rule.along);
    let source = names_condition(conditions, rule.source);
    let body = body_ends(house.tests.len(), rule.body);
    let formula = (rule.formula as u16) < formulas;
    target && delay && onto && along && source && body && formula
}

// The lowest rule of which a part is outside its range.
fn bad_rule<S: Scale>(house: &House<S>, formulas: u16) -> Option<usize>
    ensures { result ≡ position (λ rule. not (rule_kept house.now.sizes (length house.now.tests.now) (length house.now.conditions.now) formulas rule)) house.now.rules.now }
{
    house
        .rules
        .iter()
        .position(|rule| !in_range(house, formulas, *rule))
}

// Whether every part of every rule is in its range.
fn check_rules<S: Scale>(house: &House<S>, formulas: u16) -> Result<(), Defect>
    ensures { Found (rule_check house.now.sizes (length house.now.tests.now) (length house.now.conditions.now) formulas house.now.rules.now) result }
{
    bad_rule(house, formulas).map_or(Ok(()), |at| Err(Defect::Rule { at }))
}

// Whether the tables make a house, with this book of formulas. If not, the first check that fails, at its lowest place.
pub fn examine<S: Scale, B: Book<S>>(house: &House<S>, book: &B) -> Result<(), Defect>
    ensures { Examined S.Scale.size S.Scale.has house.now (B.Book.formulas book.now) result }
{
    let sizes = house.sizes;
    check_sizes(sizes)?;
    check_tables(house)?;
    check_edges(sizes, house.edges)?;
    check_fixed(house.fixed)?;
    check_tests(sizes, house.tests)?;
    check_conditions(house)?;
    check_constraints(house)?;
    check_rules(house, book.count())?;
    Ok(())
}

// Holds what the examination says of a house: an accepted one keeps the laws, and a refused one has one refusal and is
// not accepted. It does nothing when run.
pub fn accepted_laws_stand<S: Scale>()
    ensures { AcceptedLaws S.Scale.size S.Scale.has }
{}
