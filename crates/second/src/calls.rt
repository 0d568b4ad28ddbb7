// Calls on a plan, kept account of in the plainest way: the filed facts are a list, and the course is a list of sets.
use super::examination::examine;
use super::network::{Cell, Fact, Network};
use super::refusals::{Refusal, Stop};
use super::sets::{Halves, Set};
use super::steps::settle;
use std::alloc::{AllocError, Global};
use std::fmt;

// A call on a plan.
#[derive(Clone, Copy, PartialEq, Eq, Debug)]
pub enum Call {
    File(Fact),
    Strike(usize),
    Settle,
    Reopen,
    Look(Cell),
    Entails(Fact),
}

// What a call answers, if it is not refused.
#[derive(Clone, Copy, PartialEq, Eq, Debug)]
pub(crate) enum Reply {
    Filed,
    Struck,
    Settled,
    Reopened,
    Seen(Halves),
    Entailed(bool),
    // The first cell without a point.
    Contradiction(Cell),
    // The call has no place in the plan's state.
    Misplaced,
}

impl fmt::Display for Reply {
    fn fmt<W: fmt::Write>(&self, f: &mut fmt::Formatter<W>) -> fmt::Result {
        match self {
            Reply::Filed => write!(f, "filed"),
            Reply::Struck => write!(f, "struck"),
            Reply::Settled => write!(f, "settled"),
            Reply::Reopened => write!(f, "reopened"),
            Reply::Seen(halves) => write!(f, "seen {halves}"),
            Reply::Entailed(yes) => write!(f, "entailed {yes}"),
            Reply::Contradiction(cell) => write!(f, "contradiction {cell}"),
            Reply::Misplaced => write!(f, "misplaced"),
        }
    }
}

// Facts are filed and struck in a draft. Once it is settled, a plan says what it entails, until it is reopened.
#[derive(Clone, Copy, PartialEq, Eq, Debug)]
enum State {
    Draft,
    Settled,
}

// A plan: the network with the filed facts, room for so many of them, the course, and its state.
#[derive(Drop)]
pub struct Ledger {
    network: Network,
    room: usize,
    course: Vec<Set>,
    state: State,
}

impl Ledger {
    // A draft without facts. The course is what the caller's memory holds.
    pub fn open(mut network: Network, room: usize, course: Vec<Set>) -> Ledger {
        network.facts.clear();
        Ledger {
            network,
            room,
            course,
            state: State::Draft,
        }
    }

    // What a call answers, as a line.
    pub fn answer(&mut self, heap: Global, call: &Call) -> Result<String, AllocError> {
        match self.reply(heap, call) {
            Ok(reply) => format!(in heap; "{reply}\n"),
            Err(stop) => stop.line(heap),
        }
    }

    fn reply(&mut self, heap: Global, call: &Call) -> Result<Reply, Stop> {
        match (self.state, call) {
            (State::Draft, Call::File(fact)) => self.file(*fact),
            (State::Draft, Call::Strike(at)) => Ok(self.strike(*at)?),
            (State::Draft, Call::Settle) => self.settle(heap),
            (State::Settled, Call::Reopen) => {
                self.state = State::Draft;
                Ok(Reply::Reopened)
            }
            (_, Call::Look(cell)) => Ok(self.look(*cell)?),
            (State::Settled, Call::Entails(fact)) => Ok(self.entails(fact)?),
            _ => Ok(Reply::Misplaced),
        }
    }

    fn file(&mut self, fact: Fact) -> Result<Reply, Stop> {
        self.network.file(fact, self.room, 0)?;
        Ok(Reply::Filed)
    }

    fn strike(&mut self, at: usize) -> Result<Reply, Refusal> {
        if at >= self.network.facts.len() {
            return Err(Refusal::NoFact);
        }
        let _ = self.network.facts.remove(at);
        Ok(Reply::Struck)
    }

    // Refuses a course that has not a set for each cell.
    fn check_course(&self) -> Result<(), Refusal> {
        if self.course.len() == self.network.cells() {
            Ok(())
        } else {
            Err(Refusal::Course)
        }
    }

    fn settle(&mut self, heap: Global) -> Result<Reply, Stop> {
        examine(&self.network)?;
        self.check_course()?;
        let course = settle(heap, &self.network)?;
        match self.network.first_void(&course) {
            Some(cell) => {
                self.course = self.network.loosest(heap)?;
                Ok(Reply::Contradiction(cell))
            }
            None => {
                self.course = course;
                self.state = State::Settled;
                Ok(Reply::Settled)
            }
        }
    }

    fn look(&self, cell: Cell) -> Result<Reply, Refusal> {
        self.check_course()?;
        if !self.network.inside(cell) {
            return Err(Refusal::NoCell);
        }
        let seen = self.network.seen(&self.course, cell);
        Ok(Reply::Seen(self.network.kind.halves(&seen)))
    }

    fn entails(&self, fact: &Fact) -> Result<Reply, Refusal> {
        self.check_course()?;
        if !self.network.holds_fact(fact) {
            return Err(Refusal::FactOutside(0));
        }
        Ok(Reply::Entailed(self.grants(fact)))
    }

    // Whether the cells that a fact covers are within its bound.
    fn grants(&self, fact: &Fact) -> bool {
        fact.hours().all(|hour| {
            let seen = self.network.seen(&self.course, fact.cell(hour));
            seen.within(&fact.bound)
        })
    }
}
