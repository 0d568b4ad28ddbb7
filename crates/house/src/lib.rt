// The house: a building as a network, in six tables that the caller lends, and where its cells stand.
#![tactic(auto)]

mod cells;
mod tables;

pub use tables::{Body, Cell, Condition, Constraint, Edge, Fact, House, Kind, Rule, Sizes, Test};
