// Why there is no answer.
use std::alloc::{AllocError, AllocFailed, Global};
use std::fmt;

// The sizes of a building, by the places that are told of them.
#[derive(Clone, Copy, PartialEq, Eq, Debug)]
pub enum Size {
    Nodes = 0,
    Edges = 1,
    FixedLabels = 2,
    MovingLabels = 3,
    LastHour = 4,
}

// What is wrong with a file, a building or a call. Most refusals say where: the number of a record in the file, in an
// examination the number in its table.
#[derive(Clone, Copy, PartialEq, Eq, Debug)]
pub enum Refusal {
    // A size is out of its limits.
    Size(Size),
    // An edge names no node, or repeats an earlier pair.
    Edge(usize),
    // A fixed bound is void.
    FixedBound(usize),
    // A test is of no label.
    Test(usize),
    // A condition is against its rules.
    Condition(usize),
    // A constraint's head is absent or of a fixed label, or its body passes the end.
    Constraint(usize),
    // A rule has a part outside its range.
    Rule(usize),
    // There is no room for one more fact.
    FactsFull(usize),
    // A fact is not inside the building.
    FactOutside(usize),
    // There is no fact at the place that a call names.
    NoFact,
    // The course has another length than the building has cells, or the building has more cells than a program holds.
    Course,
    // There is no such hour, component or moving label.
    NoCell,
    // The file is too long, or no whole number of records.
    Length,
    // A record has an unknown letter, a nameless byte that is not 0, or a quorum that is too high.
    Form(usize),
    // Four bytes of a record are no bound.
    Bound(usize),
    // A table has no room for a record, or a fixed bound is outside the building or stands where one was given already.
    NoRoom(usize),
    // The file has no record of the sizes, or more than one.
    SizesRecord,
}

impl Refusal {
    // Its number, and the place that is told with it: 0 where there is none to tell.
    fn number_and_place(self) -> (usize, usize) {
        match self {
            Refusal::Size(size) => (1, size as usize),
            Refusal::Edge(place) => (3, place),
            Refusal::FixedBound(place) => (4, place),
            Refusal::Test(place) => (5, place),
            Refusal::Condition(place) => (6, place),
            Refusal::Constraint(place) => (7, place),
            Refusal::Rule(place) => (8, place),
            Refusal::FactsFull(place) => (10, place),
            Refusal::FactOutside(place) => (11, place),
            Refusal::NoFact => (12, 0),
            Refusal::Course => (13, 0),
            Refusal::NoCell => (15, 0),
            Refusal::Length => (21, 0),
            Refusal::Form(place) => (22, place),
            Refusal::Bound(place) => (23, place),
            Refusal::NoRoom(place) => (24, place),
            Refusal::SizesRecord => (25, 0),
        }
    }
}

impl fmt::Display for Refusal {
    fn fmt<W: fmt::Write>(&self, f: &mut fmt::Formatter<W>) -> fmt::Result {
        let (number, place) = self.number_and_place();
        write!(f, "refused {number} {place}")
    }
}

// Why a job ends early: a refusal, or want of memory.
#[derive(Clone, Copy, PartialEq, Eq, Debug)]
pub enum Stop {
    Refused(Refusal),
    Memory(AllocError),
}

impl Stop {
    // The line that tells a refusal. Want of memory stays an error.
    pub(crate) fn line(self, heap: Global) -> Result<String, AllocError> {
        match self {
            Stop::Refused(refusal) => format!(in heap; "{refusal}\n"),
            Stop::Memory(error) => Err(error),
        }
    }
}

impl From<Refusal> for Stop {
    fn from(value: Refusal) -> Stop {
        Stop::Refused(value)
    }
}

impl From<AllocError> for Stop {
    fn from(value: AllocError) -> Stop {
        Stop::Memory(value)
    }
}

impl<T: Drop> From<AllocFailed<T>> for Stop {
    fn from(value: AllocFailed<T>) -> Stop {
        Stop::Memory(AllocError::from(value))
    }
}
