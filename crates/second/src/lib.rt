// A second planner, to compare the first with: the same job from bytes to text, and the same calls on a plan. It is
// written apart from the other crates and shares no code with them. Everything is done as plainly as the rules say it: a
// bound is the set of its points, and the joint step is repeated from the loosest course until nothing changes. It is
// proved safe and to return, and nothing more.
#![tactic(auto)]

mod calls;
mod examination;
mod network;
mod reading;
mod refusals;
mod sets;
mod steps;
mod text;

pub use calls::{Call, Ledger};
pub use network::{Cell, Fact, Network};
pub use reading::read;
pub use refusals::{Refusal, Size, Stop};
pub use sets::{Halves, Kind, Set};
pub use text::answer;
