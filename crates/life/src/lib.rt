// Lives of a plan: lists of calls, what each answered, and what is promised of every such list.
#![tactic(auto)]

ghost use Rattle.house.specs.declared.tables.House.{House as House'};
ghost use Rattle.examining.specs.Examine.{Accepted};
ghost use Rattle.life.specs.Promise.{Kept};

mod calls;
mod replays;

use book::Book;
pub use calls::{Answer, Call, Plan};
pub use replays::{replay, step};
use scale::Scale;

// Holds the promise: every life of a plan keeps it, for every scale, every book and every house that examine accepts
// with that book. It does nothing when run.
pub fn promise_stands<S: Scale, B: Book<S>>()
    ensures { (b : B) (h : House' S) → Accepted S.Scale.size S.Scale.has h (B.Book.formulas b) → Kept S.Scale.size S.Scale.has h (B.Book.formulas b) (B.Book.says b) }
{}
