// The neighbours that press on a node.
ghost use Rattle.std.specs.Prelude.{◌≡◌, ◌&&◌, ◌==◌};
ghost use Rattle.fitting.specs.Course.{course_of};
ghost use Rattle.judge.specs.Judged.{held_on_lem, Counted};

use super::{Spot, Verdicts, body_met, held_on};
use house::{Edge, House, Rule};
use scale::Scale;

// How many neighbours are eligible, and how many of these qualify.
#[derive(Clone, Copy, PartialEq, Eq, Debug)]
pub struct Count {
    pub eligible: u16,
    pub qualifying: u16,
}

// Counts the neighbours of a node for a rule at an hour, over all edges into the node. A neighbour is eligible where the
// edge and the neighbour meet the rule's conditions, and qualifies if the rule's body is met on it `delay` hours before.
//
// Settling spends most of its time in this loop. As a function of its own it has the registers for itself: woven into the
// loops over hours, rules and nodes it took half as long again.
#[inline(never)]
pub fn neighbours<S: Scale>(
    house: &House<S>,
    verdicts: &[Verdicts],
    cells: &[S],
    rule: Rule,
    node: Spot,
) -> Count
    ensures { Counted S.Scale.size S.Scale.has house.now verdicts.now (course_of house.now.sizes S.Scale.has cells.now) rule node.hour node.component result }
{
    let past = node.hour.saturating_sub(rule.delay);
    let mut count = Count {
        eligible: 0,
        qualifying: 0,
    };
    // One loop for both counts: a fold would carry the same two sums through a closure, which is no plainer.
    for (e, edge) in house.edges.iter().enumerate() {
        let along = house.sizes.nodes as usize + e;
        if feeds(verdicts, rule, node.component, edge, along) {
            count.eligible = count.eligible.saturating_add(1);
            let neighbour = Spot {
                hour: past,
                component: edge.from,
            };
            if body_met(house, cells, neighbour, rule.body) {
                count.qualifying = count.qualifying.saturating_add(1);
            }
        }
    }
    count
}

// Whether an edge leads to the node, and its node and it, the component `along`, meet the rule's conditions.
fn feeds(verdicts: &[Verdicts], rule: Rule, node: u16, edge: &Edge, along: usize) -> bool
    ensures { result ≡ ((edge.now.to == node) && held_on_lem verdicts.now rule.source edge.now.from && held_on_lem verdicts.now rule.along along) }
{
    edge.to == node
        && held_on(verdicts, rule.source, edge.from as usize)
        && held_on(verdicts, rule.along, along)
}
