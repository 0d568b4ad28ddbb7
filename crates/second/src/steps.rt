// The joint step on a course, and its repetition from the loosest course until nothing changes.
//
// A course is a list of sets, one for each cell. The methods of `Present` whose names end in `ask` say what one of the
// rules asks of one cell on the present course; where it asks nothing, that is all points.
use super::network::{Body, Cell, Condition, Constraint, Network, Rule, Test};
use super::sets::Set;
use std::alloc::{AllocError, Global};

// What the conditions say: a row for each component, with what each condition says on it.
#[derive(Drop)]
struct Verdicts {
    rows: Vec<Vec<bool>>,
}

// What a condition that was judged says.
fn said(row: &[bool], i: usize) -> bool {
    row.get(i).copied().unwrap_or(false)
}

// What the conditions say on a component. Each speaks of earlier ones.
fn judge(heap: Global, network: &Network, component: usize) -> Result<Vec<bool>, AllocError> {
    let mut row = Vec::new(heap);
    for condition in network.conditions.iter() {
        let holds = match *condition {
            Condition::Met(test) => fixed_met(network, component, test),
            Condition::Not(a) => !said(&row, a),
            Condition::Both(a, b) => said(&row, a) && said(&row, b),
            Condition::Either(a, b) => said(&row, a) || said(&row, b),
            Condition::Unknown(_) => false,
        };
        row.push(holds)?;
    }
    Ok(row)
}

// Whether a test of a fixed label is met on a component.
fn fixed_met(network: &Network, component: usize, test: usize) -> bool {
    let test = network.tests.get(test);
    test.is_some_and(|test| test.met_by(&network.fixed_bound(component, test.label)))
}

impl Verdicts {
    // What the conditions say on every component.
    fn of(heap: Global, network: &Network) -> Result<Verdicts, AllocError> {
        let rows = (0..network.components())
            .map(|component| judge(heap, network, component))
            .try_collect(heap)?;
        Ok(Verdicts { rows })
    }

    // Whether a condition of a rule holds on a component.
    fn hold(&self, component: usize, condition: Option<usize>) -> bool {
        let row = self.rows.get(component);
        condition.is_none_or(|i| row.is_some_and(|row| said(row, i)))
    }
}

// A network on its present course.
#[derive(Clone, Copy)]
struct Present<'a> {
    network: &'a Network,
    verdicts: &'a Verdicts,
    course: &'a [Set],
    // All points of the scale.
    all: Set,
}

impl Present<'_> {
    // What is known of a component's label at an hour: its fixed bound, or what the course has.
    fn known(&self, cell: Cell) -> Set {
        if cell.label < self.network.fixed_labels {
            return self.network.fixed_bound(cell.component, cell.label);
        }
        self.network.seen(self.course, cell)
    }

    // Whether a test is met on the component of a cell at its hour. The test is of its own label.
    fn test_met(&self, test: &Test, cell: Cell) -> bool {
        let label = test.label;
        test.met_by(&self.known(Cell { label, ..cell }))
    }

    // Whether all tests of a body are met there.
    fn body_met(&self, body: Body, cell: Cell) -> bool {
        let tests = &self.network.tests;
        body.tests().all(|i| tests.get(i).is_some_and(|test| self.test_met(test, cell)))
    }

    // What the facts ask.
    fn facts_ask(&self, cell: Cell) -> Set {
        let facts = self.network.facts.iter();
        facts
            .filter(|fact| fact.covers(cell))
            .fold(self.all, |asked, fact| asked.meet(&fact.bound))
    }

    // The head of a constraint that asks something of a cell.
    fn asking(&self, constraint: &Constraint, cell: Cell) -> Option<&Test> {
        let head = self.network.tests.get(constraint.head);
        head.filter(|head| head.label == cell.label && self.body_met(constraint.body, cell))
    }

    // What the constraints ask, whose bodies are met.
    fn constraints_ask(&self, cell: Cell) -> Set {
        let constraints = self.network.constraints.iter();
        constraints
            .filter_map(|constraint| self.asking(constraint, cell))
            .fold(self.all, |asked, head| asked.meet(&head.bound))
    }

    // Whether a rule acts on a cell of a node.
    fn acts(&self, rule: &Rule, cell: Cell) -> bool {
        cell.component < self.network.nodes
            && rule.target == cell.label
            && rule.delay <= cell.hour
            && self.verdicts.hold(cell.component, rule.onto)
    }

    // What a formula says where x of y neighbours qualify.
    fn says(&self, formula: usize, x: usize, y: usize) -> Set {
        if y < self.network.quorum || y == 0 {
            return self.all;
        }
        let stairs = self.network.stairs.iter();
        stairs
            .filter(|stair| stair.formula == formula && stair.reached(x, y))
            .fold(self.all, |said, stair| said.meet(&stair.bound))
    }

    // The neighbours of a node that are eligible for a rule, as a set of nodes.
    fn eligible(&self, rule: &Rule, node: usize) -> Set {
        let mut eligible = Set::empty();
        for (e, edge) in self.network.edges.iter().enumerate() {
            let line = self.network.nodes.saturating_add(e);
            if edge.to == node
                && self.verdicts.hold(line, rule.along)
                && self.verdicts.hold(edge.from, rule.source)
            {
                eligible.put(edge.from);
            }
        }
        eligible
    }

    // Whether a node qualifies for a rule that acts on a cell: the rule's body was met on it, the delay earlier.
    fn qualifies(&self, rule: &Rule, cell: Cell, node: usize) -> bool {
        let earlier = Cell {
            hour: cell.hour.saturating_sub(rule.delay),
            component: node,
            ..cell
        };
        self.body_met(rule.body, earlier)
    }

    // What a rule that acts on a cell asks of it.
    fn rule_asks(&self, rule: &Rule, cell: Cell) -> Set {
        let eligible = self.eligible(rule, cell.component);
        let qualifying = (0..self.network.nodes)
            .filter(|node| eligible.has(*node) && self.qualifies(rule, cell, *node))
            .count();
        self.says(rule.formula, qualifying, eligible.count())
    }

    // What the rules ask that act.
    fn rules_ask(&self, cell: Cell) -> Set {
        let rules = self.network.rules.iter();
        rules
            .filter(|rule| self.acts(rule, cell))
            .fold(self.all, |asked, rule| {
                asked.meet(&self.rule_asks(rule, cell))
            })
    }

    // Whether a cell is touched by a fact or a rule, so that it is not carried.
    fn touched(&self, cell: Cell) -> bool {
        let mut facts = self.network.facts.iter();
        let mut rules = self.network.rules.iter();
        facts.any(|fact| fact.covers(cell)) || rules.any(|rule| self.acts(rule, cell))
    }

    // What carrying asks: a cell that is not touched has only points that it had an hour before.
    fn carrying_asks(&self, cell: Cell) -> Set {
        if cell.hour == 0 || self.touched(cell) {
            return self.all;
        }
        let hour = cell.hour.saturating_sub(1);
        self.known(Cell { hour, ..cell })
    }

    // What the joint step makes of a cell.
    fn stepped(&self, cell: Cell) -> Set {
        self.known(cell)
            .meet(&self.facts_ask(cell))
            .meet(&self.constraints_ask(cell))
            .meet(&self.rules_ask(cell))
            .meet(&self.carrying_asks(cell))
    }

    // The joint step on the whole course.
    fn joint_step(&self, heap: Global) -> Result<Vec<Set>, AllocError> {
        (0..self.network.cells())
            .map(|place| self.stepped(self.network.cell_at(place)))
            .collect(heap)
    }
}

// The course at which repeated joint steps from the loosest one come to rest.
pub(crate) fn settle(heap: Global, network: &Network) -> Result<Vec<Set>, AllocError> {
    let verdicts = Verdicts::of(heap, network)?;
    let mut course = network.loosest(heap)?;
    // Counted, so that it is proved to end. Each turn but the last takes points away, and there are far fewer than that.
    for _turn in 0..u64::MAX {
        let present = Present {
            network,
            verdicts: &verdicts,
            course: &course,
            all: network.kind.all(),
        };
        let next = present.joint_step(heap)?;
        if next == course {
            break;
        }
        course = next;
    }
    Ok(course)
}
