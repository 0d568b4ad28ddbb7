// The examination of a house: whether its tables make one, and if not, what is wrong first.
#![tactic(auto)]

mod checks;
mod defects;

pub use checks::{accepted_laws_stand, check_sizes, examine};
pub use defects::{Defect, Dimension, TableName, require};
