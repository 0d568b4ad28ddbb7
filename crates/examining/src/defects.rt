// What `examine` can find wrong.
ghost use Rattle.std.specs.Prelude.{◌≡◌};
ghost use Rattle.examining.specs.Defects.{number_of, place_of, dimension_place, table_place, Required};

// The sizes of a house that have limits.
#[derive(Clone, Copy, PartialEq, Eq, Debug)]
pub enum Dimension {
    Nodes,
    Edges,
    FixedLabels,
    MovingLabels,
    LastHour,
}

// The tables of a house.
#[derive(Clone, Copy, PartialEq, Eq, Debug)]
pub enum TableName {
    Edges,
    FixedBounds,
    Tests,
    Conditions,
    Constraints,
    Rules,
}

// Each case is a check that a house fails, with the lowest place at which it fails.
#[derive(Clone, Copy, PartialEq, Eq, Debug)]
pub enum Defect {
    // A size outside its limits.
    Size(Dimension),
    // A table of a wrong length.
    Table(TableName),
    // An edge that names no node, or repeats an earlier pair.
    Edge { at: usize },
    // A void fixed bound.
    Fixed { at: usize },
    // A test of no label.
    Test { at: usize },
    // A condition against the rules of its kind.
    Condition { at: usize },
    // A constraint whose head is no test of a moving label, or whose body passes the end of the tests.
    Constraint { at: usize },
    // A rule with a part outside its range.
    Rule { at: usize },
}

impl Dimension {
    // Its place among the sizes. Written out, so that nothing hangs on the order of the cases.
    pub fn place(self) -> usize
        ensures { result ≡ dimension_place self }
    {
        match self {
            Dimension::Nodes => 0,
            Dimension::Edges => 1,
            Dimension::FixedLabels => 2,
            Dimension::MovingLabels => 3,
            Dimension::LastHour => 4,
        }
    }
}

impl TableName {
    // Its place among the tables. Written out, for the same reason.
    pub fn place(self) -> usize
        ensures { result ≡ table_place self }
    {
        match self {
            TableName::Edges => 0,
            TableName::FixedBounds => 1,
            TableName::Tests => 2,
            TableName::Conditions => 3,
            TableName::Constraints => 4,
            TableName::Rules => 5,
        }
    }
}

impl Defect {
    // The number of the check that fails, 1 to 8 in the order of the checks.
    pub fn number(self) -> u8
        ensures { result ≡ number_of self }
    {
        match self {
            Defect::Size(_) => 1,
            Defect::Table(_) => 2,
            Defect::Edge { .. } => 3,
            Defect::Fixed { .. } => 4,
            Defect::Test { .. } => 5,
            Defect::Condition { .. } => 6,
            Defect::Constraint { .. } => 7,
            Defect::Rule { .. } => 8,
        }
    }

    // The place at which it fails: which size or table, or which record.
    pub fn place(self) -> usize
        ensures { result ≡ place_of self }
    {
        match self {
            Defect::Size(dimension) => dimension.place(),
            Defect::Table(table) => table.place(),
            Defect::Edge { at }
            | Defect::Fixed { at }
            | Defect::Test { at }
            | Defect::Condition { at }
            | Defect::Constraint { at }
            | Defect::Rule { at } => at,
        }
    }
}

// Refuses unless a check passes.
pub fn require<E: Copy>(passes: bool, refusal: E) -> Result<(), E>
    ensures { Required passes refusal result }
{
    if passes { Ok(()) } else { Err(refusal) }
}
