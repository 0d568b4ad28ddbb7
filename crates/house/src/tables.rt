// The records of the tables. Any numbers can stand in them: `examine` says whether they make a house.
ghost use Rattle.std.specs.Prelude.{◌≡◌};
ghost use Rattle.house.specs.Kinds.{kind_of};

// How large the house is. Components are the nodes 0 to `nodes` - 1, then the edges from `nodes` on. Labels below
// `fixed` are fixed, and the `moving` labels after them move by the hour. Hours are 0 to `last`.
#[derive(Clone, Copy, PartialEq, Eq, Debug)]
pub struct Sizes {
    pub nodes: u16,
    pub edges: u16,
    pub fixed: u8,
    pub moving: u8,
    pub last: u8,
}

// A cell of a course, by its name: the bound of a moving label of a component at an hour.
#[derive(Clone, Copy, PartialEq, Eq, Debug)]
pub struct Cell {
    pub hour: u8,
    pub component: u16,
    pub label: u8,
}

// A line that feeds the node `to` from the node `from`. Two edges are equal where both ends are, in this order.
#[derive(Clone, Copy, PartialEq, Eq, Debug)]
pub struct Edge {
    pub from: u16,
    pub to: u16,
}

// A test of a label: met by a bound that lies within this one.
#[derive(Clone, Copy)]
pub struct Test<S> {
    pub label: u8,
    pub bound: S,
}

// How a condition is made.
#[derive(Clone, Copy, PartialEq, Eq, Debug)]
pub enum Kind {
    // Test a of a fixed label is met.
    Test,
    // The earlier condition a does not hold.
    Not,
    // The earlier conditions a and b both hold.
    Both,
    // One of the earlier conditions a and b holds.
    Either,
    // No kind of condition. A record can have such a number, and `examine` refuses it.
    Unknown(u8),
}

// The kinds by their numbers in a record: 0 to 3 in this order.
impl From<u8> for Kind {
    ghost from_gives = { λ x r. r ≡ kind_of x };

    fn from(value: u8) -> Kind {
        match value {
            0 => Kind::Test,
            1 => Kind::Not,
            2 => Kind::Both,
            3 => Kind::Either,
            other => Kind::Unknown(other),
        }
    }
}

// A condition on the fixed labels of a component, made of a and b as its kind says. Both numbers stand beside the kind, and
// not inside its cases: a record has both, and what a record has is read as it stands, whether its kind looks at it or not.
#[derive(Clone, Copy, PartialEq, Eq, Debug)]
pub struct Condition {
    pub kind: Kind,
    pub a: u8,
    pub b: u8,
}

// A run of tests: `count` of them, from `first` on. It is met when all of them are.
#[derive(Clone, Copy, PartialEq, Eq, Debug)]
pub struct Body {
    pub first: u8,
    pub count: u8,
}

// Wherever the body is met, the head test's label has to lie within the head test's bound.
#[derive(Clone, Copy, PartialEq, Eq, Debug)]
pub struct Constraint {
    pub head: u8,
    pub body: Body,
}

// Neighbours press on the moving label `target` of a node, `delay` hours later. `onto`, `along` and `source` are the
// conditions on the node, the edge and the neighbour; where there is none, every one will do. A neighbour on which the
// body is met qualifies, and the formula says the bound.
#[derive(Clone, Copy, PartialEq, Eq, Debug)]
pub struct Rule {
    pub target: u8,
    pub delay: u8,
    pub onto: Option<u8>,
    pub along: Option<u8>,
    pub source: Option<u8>,
    pub body: Body,
    pub formula: u8,
}

// The sizes and the six tables, numbered 0 to 5 in this order. The fixed bound of a component's label stands at
// component * `sizes.fixed` + label.
#[derive(Clone, Copy)]
pub struct House<'a, S> {
    pub sizes: Sizes,
    pub edges: &'a [Edge],
    pub fixed: &'a [S],
    pub tests: &'a [Test<S>],
    pub conditions: &'a [Condition],
    pub constraints: &'a [Constraint],
    pub rules: &'a [Rule],
}

// What is known of a moving label of a component, over the hours `from` to `to`, both included.
#[derive(Clone, Copy)]
pub struct Fact<S> {
    pub component: u16,
    pub label: u8,
    pub bound: S,
    pub from: u8,
    pub to: u8,
}
