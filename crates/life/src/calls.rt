// Calls on a plan as values, and their answers.
use house::{Cell, Fact};
use plan::{Clash, Draft, Refusal, Settled};

// A plan in either phase.
#[derive(Drop)]
pub enum Plan {
    Draft(Draft),
    Settled(Settled),
}

// A call on a plan that was opened. One kind of call is one case.
#[derive(Clone, Copy)]
pub enum Call<S> {
    File(Fact<S>),
    Strike(usize),
    Settle,
    Reopen,
    Look(Cell),
    Entails(Fact<S>),
}

// What a call answered.
#[derive(Clone, Copy)]
pub enum Answer<S> {
    Filed,
    Struck,
    Settled,
    Contradiction(Clash),
    Reopened,
    Seen(S),
    Entailed(bool),
    Refused(Refusal),
    // The plan was not in a phase in which the build allows this call. Nothing was done.
    Misplaced,
}
