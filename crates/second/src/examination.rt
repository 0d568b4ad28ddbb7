// What is wrong with a network, if anything: the first check that fails, at its lowest record.
use super::network::{Body, Condition, Constraint, Edge, Network, Rule};
use super::refusals::Refusal;

// Whether edge i names nodes, and no earlier edge has the same pair.
fn edge_stands(network: &Network, i: usize, edge: &Edge) -> bool {
    let mut earlier = network.edges.iter().take(i);
    edge.from < network.nodes && edge.to < network.nodes && earlier.all(|other| other != edge)
}

// Whether condition i tests a fixed label, or is made of earlier conditions.
fn condition_stands(network: &Network, i: usize, condition: Condition) -> bool {
    match condition {
        Condition::Met(test) => {
            let test = network.tests.get(test);
            test.is_some_and(|test| test.label < network.fixed_labels)
        }
        Condition::Not(a) => a < i,
        Condition::Both(a, b) | Condition::Either(a, b) => a < i && b < i,
        Condition::Unknown(_) => false,
    }
}

// Whether a body ends with the tests or before.
fn body_ends(network: &Network, body: Body) -> bool {
    body.tests().end <= network.tests.len()
}

// Whether a constraint's head tests a moving label, and its body ends in time.
fn constraint_stands(network: &Network, constraint: &Constraint) -> bool {
    let head = network.tests.get(constraint.head);
    head.is_some_and(|test| network.moves(test.label)) && body_ends(network, constraint.body)
}

// Whether there is such a formula: some stair has its number or a higher one.
fn has_formula(network: &Network, formula: usize) -> bool {
    let mut stairs = network.stairs.iter();
    stairs.any(|stair| formula <= stair.formula)
}

// Whether each part of a rule is in its range.
fn rule_stands(network: &Network, rule: &Rule) -> bool {
    let conditions = [rule.onto, rule.along, rule.source];
    let mut named = conditions.iter().flatten();
    network.moves(rule.target)
        && (1..=63).contains(&rule.delay)
        && named.all(|i| *i < network.conditions.len())
        && body_ends(network, rule.body)
        && has_formula(network, rule.formula)
}

// Refuses, if there is a reason to.
fn refuse(reason: Option<Refusal>) -> Result<(), Refusal> {
    reason.map_or(Ok(()), Err)
}

// The first check that fails. Sizes and lengths are right in a network that was read.
pub(crate) fn examine(network: &Network) -> Result<(), Refusal> {
    let mut edges = network.edges.iter().enumerate();
    let edge = edges.position(|(i, edge)| !edge_stands(network, i, edge));
    refuse(edge.map(Refusal::Edge))?;

    let bound = network.fixed.iter().position(|bound| bound.is_empty());
    refuse(bound.map(Refusal::FixedBound))?;

    let mut tests = network.tests.iter();
    let test = tests.position(|test| test.label >= network.labels());
    refuse(test.map(Refusal::Test))?;

    let mut conditions = network.conditions.iter().enumerate();
    let condition = conditions.position(|(i, condition)| !condition_stands(network, i, *condition));
    refuse(condition.map(Refusal::Condition))?;

    let mut constraints = network.constraints.iter();
    let constraint = constraints.position(|constraint| !constraint_stands(network, constraint));
    refuse(constraint.map(Refusal::Constraint))?;

    let mut rules = network.rules.iter();
    let rule = rules.position(|rule| !rule_stands(network, rule));
    refuse(rule.map(Refusal::Rule))
}
