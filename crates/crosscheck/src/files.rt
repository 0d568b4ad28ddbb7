// Random record files of a given shape.
use super::bounds::{Taste, Width, high, low};
use super::dice::Dice;
use std::alloc::{AllocError, Global};

// What stands in a record in the place of a rule's condition where there is none.
const NO_CONDITION: usize = 255;

// How large a house is, and how many records of each kind the file has. Nothing keeps these within the limits of a
// house, so that files just past a limit can be made too.
#[derive(Clone, Copy)]
pub struct Shape {
    pub nodes: usize,
    pub edges: usize,
    pub fixed: usize,
    pub moving: usize,
    pub last: usize,
    pub quorum: usize,
    pub fixed_bounds: usize,
    pub tests: usize,
    pub conditions: usize,
    pub constraints: usize,
    pub rules: usize,
    pub stairs: usize,
    pub formulas: usize,
    pub facts: usize,
}

impl Shape {
    // A small house.
    pub fn small(dice: &mut Dice) -> Shape {
        let nodes = dice.between(1, 6);
        let tests = dice.between(0, 8);
        let stairs = dice.between(0, 6);
        Shape {
            nodes,
            edges: dice.between(0, nodes.saturating_mul(nodes).min(12)),
            fixed: dice.between(0, 3),
            moving: dice.between(1, 3),
            last: dice.between(0, 7),
            quorum: if dice.once_in(3) { dice.below(4) } else { 0 },
            fixed_bounds: dice.between(0, 6),
            tests,
            conditions: dice.between(0, 5),
            constraints: dice.between(0, 4),
            rules: dice.between(0, 6),
            stairs,
            formulas: dice.between(1, 3),
            facts: dice.between(0, 8),
        }
    }

    // How many tests are of fixed labels: those in front.
    fn fixed_tests(self) -> usize {
        if self.fixed == 0 {
            return 0;
        }
        self.tests / 2
    }

    pub fn components(self) -> usize {
        self.nodes.saturating_add(self.edges)
    }

    // How many cells a course has.
    pub fn cells(self) -> usize {
        let row = self.components().saturating_mul(self.moving);
        row.saturating_mul(self.last.saturating_add(1))
    }
}

// Appends a record: a letter and what follows it, filled up with zeros.
pub fn push_record(bytes: &mut Vec<u8>, letter: u8, rest: &[u8]) -> Result<(), AllocError> {
    let end = bytes.len().saturating_add(16);
    bytes.push(letter)?;
    bytes.extend_from_slice(rest)?;
    bytes.resize(end, 0)
}

// The kinds of records.
#[derive(Clone, Copy)]
enum Section {
    Sizes,
    Edges,
    FixedBounds,
    Tests,
    Conditions,
    Constraints,
    Rules,
    Stairs,
    Facts,
}

const SECTIONS: [Section; 9] = [
    Section::Sizes,
    Section::Edges,
    Section::FixedBounds,
    Section::Tests,
    Section::Conditions,
    Section::Constraints,
    Section::Rules,
    Section::Stairs,
    Section::Facts,
];

// What a file is to be like: its shape, and the taste of its bounds.
#[derive(Clone, Copy)]
pub struct Sketch {
    pub shape: Shape,
    pub taste: Taste,
}

// A file in the making: its bytes, and what it is to be like.
#[derive(Drop)]
pub struct Draft {
    pub bytes: Vec<u8>,
    sketch: Sketch,
}

impl Draft {
    // A file after a sketch. The kinds of records come one after the other, beginning with any of them.
    pub fn write(heap: Global, dice: &mut Dice, sketch: Sketch) -> Result<Draft, AllocError> {
        let mut draft = Draft {
            bytes: Vec::new(heap),
            sketch,
        };
        let kinds = SECTIONS.len();
        let first = dice.below(kinds);
        for section in SECTIONS.iter().cycle().skip(first).take(kinds) {
            draft.section(dice, *section)?;
        }
        Ok(draft)
    }

    // All records of a kind. A match, and no table of functions: each takes `&mut self`.
    fn section(&mut self, dice: &mut Dice, section: Section) -> Result<(), AllocError> {
        match section {
            Section::Sizes => self.sizes(),
            Section::Edges => self.edges(dice),
            Section::FixedBounds => self.fixed_bounds(dice),
            Section::Tests => self.tests(dice),
            Section::Conditions => self.conditions(dice),
            Section::Constraints => self.constraints(dice),
            Section::Rules => self.rules(dice),
            Section::Stairs => self.stairs(dice),
            Section::Facts => self.facts(dice),
        }
    }

    fn record(&mut self, letter: u8, rest: &[u8]) -> Result<(), AllocError> {
        push_record(&mut self.bytes, letter, rest)
    }

    fn sizes(&mut self) -> Result<(), AllocError> {
        let s = self.sketch.shape;
        let rest = [
            high(s.nodes),
            low(s.nodes),
            low(s.moving),
            low(s.fixed),
            low(s.last),
            low(s.quorum),
        ];
        self.record(b'S', &rest)
    }

    // Edges of which no pair comes twice while there are enough pairs: every few pairs in turn, or the same turned round.
    fn edges(&mut self, dice: &mut Dice) -> Result<(), AllocError> {
        let nodes = self.sketch.shape.nodes.max(1);
        let pairs = nodes.saturating_mul(nodes).max(1);
        let first = dice.below(pairs);
        let stride = if dice.once_in(2) {
            1
        } else {
            nodes.saturating_add(1)
        };
        let turned = dice.once_in(2);
        for i in 0..self.sketch.shape.edges {
            let pair = i.saturating_mul(stride).saturating_add(first) % pairs;
            let (a, b) = (pair / nodes, pair % nodes);
            let (from, to) = if turned { (b, a) } else { (a, b) };
            self.record(b'E', &[high(from), low(from), high(to), low(to)])?;
        }
        Ok(())
    }

    fn fixed_bounds(&mut self, dice: &mut Dice) -> Result<(), AllocError> {
        let places = self
            .sketch
            .shape
            .components()
            .saturating_mul(self.sketch.shape.fixed);
        if places == 0 {
            return Ok(());
        }
        let first = dice.below(places);
        for i in 0..self.sketch.shape.fixed_bounds.min(places) {
            let place = first.saturating_add(i) % places;
            let component = place / self.sketch.shape.fixed.max(1);
            let label = place % self.sketch.shape.fixed.max(1);
            let [p, q, r, s] = self.bound_or_void(dice, Width::Narrow);
            let rest = [high(component), low(component), low(label), p, q, r, s];
            self.record(b'X', &rest)?;
        }
        Ok(())
    }

    fn tests(&mut self, dice: &mut Dice) -> Result<(), AllocError> {
        for i in 0..self.sketch.shape.tests {
            let label = if i < self.sketch.shape.fixed_tests() {
                dice.below(self.sketch.shape.fixed)
            } else {
                self.moving_label(dice)
            };
            let [p, q, r, s] = self.bound_or_void(dice, Width::Wide);
            self.record(b'T', &[low(label), 0, 0, p, q, r, s])?;
        }
        Ok(())
    }

    // A bound of this width, and the void once in thirty.
    fn bound_or_void(&self, dice: &mut Dice, width: Width) -> [u8; 4] {
        if dice.once_in(30) {
            self.sketch.taste.void()
        } else {
            self.sketch.taste.bound(dice, width)
        }
    }

    fn moving_label(&mut self, dice: &mut Dice) -> usize {
        self.sketch
            .shape
            .fixed
            .saturating_add(dice.below(self.sketch.shape.moving))
    }

    // Conditions are there only where a fixed label is tested. Their kinds are the numbers that a record has: 0 looks at a
    // test, the others at earlier conditions.
    fn conditions(&mut self, dice: &mut Dice) -> Result<(), AllocError> {
        let tests = self.sketch.shape.fixed_tests();
        if tests == 0 {
            return Ok(());
        }
        for i in 0..self.sketch.shape.conditions {
            let kind = if i == 0 { 0 } else { dice.below(4) };
            let a = if kind == 0 {
                dice.below(tests)
            } else {
                dice.below(i)
            };
            self.record(b'C', &[low(kind), low(a), low(dice.below(i))])?;
        }
        Ok(())
    }

    // A run of tests: the first, and how many.
    fn body(&mut self, dice: &mut Dice) -> (usize, usize) {
        let first = dice.below(self.sketch.shape.tests.saturating_add(1));
        let most = self.sketch.shape.tests.saturating_sub(first).min(2);
        (first, dice.between(0, most))
    }

    fn constraints(&mut self, dice: &mut Dice) -> Result<(), AllocError> {
        let fixed = self.sketch.shape.fixed_tests();
        let moving = self.sketch.shape.tests.saturating_sub(fixed);
        if moving == 0 {
            return Ok(());
        }
        for _i in 0..self.sketch.shape.constraints {
            let head = fixed.saturating_add(dice.below(moving));
            let (first, count) = self.body(dice);
            self.record(b'K', &[low(head), low(first), low(count)])?;
        }
        Ok(())
    }

    // A condition of a rule: one that is there, or none.
    fn condition(&mut self, dice: &mut Dice) -> Option<usize> {
        if self.sketch.shape.fixed_tests() == 0
            || self.sketch.shape.conditions == 0
            || dice.once_in(2)
        {
            return None;
        }
        Some(dice.below(self.sketch.shape.conditions))
    }

    fn rules(&mut self, dice: &mut Dice) -> Result<(), AllocError> {
        let formulas = self.sketch.shape.formulas.min(self.sketch.shape.stairs);
        if formulas == 0 {
            return Ok(());
        }
        for _i in 0..self.sketch.shape.rules {
            let target = self.moving_label(dice);
            let delay = if dice.once_in(12) {
                63
            } else {
                dice.between(1, 3)
            };
            let onto = self.condition(dice);
            let along = self.condition(dice);
            let source = self.condition(dice);
            let (first, count) = self.body(dice);
            let rest = [
                low(target),
                low(delay),
                low(onto.unwrap_or(NO_CONDITION)),
                low(along.unwrap_or(NO_CONDITION)),
                low(source.unwrap_or(NO_CONDITION)),
                low(first),
                low(count),
                low(dice.below(formulas)),
            ];
            self.record(b'R', &rest)?;
        }
        Ok(())
    }

    // Stairs whose formulas take turns, so that each below their number has one while there are enough stairs.
    fn stairs(&mut self, dice: &mut Dice) -> Result<(), AllocError> {
        for i in 0..self.sketch.shape.stairs {
            let formula = i % self.sketch.shape.formulas.max(1);
            let share = if dice.once_in(3) {
                dice.between(0, 1001)
            } else {
                dice.between(0, 4).saturating_mul(250)
            };
            let [p, q, r, s] = self.sketch.taste.bound(dice, Width::Wide);
            self.record(b'Q', &[low(formula), high(share), low(share), p, q, r, s])?;
        }
        Ok(())
    }

    fn facts(&mut self, dice: &mut Dice) -> Result<(), AllocError> {
        for _i in 0..self.sketch.shape.facts {
            let component = dice.below(self.sketch.shape.components());
            let label = self.moving_label(dice);
            let [p, q, r, s] = self.sketch.taste.bound(dice, Width::Narrow);
            let from = dice.below(self.sketch.shape.last.saturating_add(1));
            let to = dice.between(from, self.sketch.shape.last.min(from.saturating_add(2)));
            let rest = [
                high(component),
                low(component),
                low(label),
                p,
                q,
                r,
                s,
                low(from),
                low(to),
            ];
            self.record(b'F', &rest)?;
        }
        Ok(())
    }
}
