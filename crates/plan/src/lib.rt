// Plans: the facts that are filed against a house, and the course that they settle to.
//
// A plan is a draft or it is settled. A draft takes filings and strikes, and can be settled; a settled plan answers what
// its course entails, and is reopened before anything more is filed. A plan holds no table: the caller keeps the house,
// the table of facts and the cells of the course, and lends them to each call. A plan is moved, never copied, so that a
// draft that was settled is gone. What is lent comes side by side: `look` and `entails` alone are lent the
// same, sizes and course, and a struct of the two would be made anew for each.
//
// A call refuses at the first check that fails, in an order of its own, and then leaves the plan and all that was lent as
// they were. `Refusal` gives each refusal its number and its place.
#![tactic(auto)]

ghost use Rattle.house.specs.declared.tables.House.{House as House'};
ghost use Rattle.plan.specs.Steps.{StepsLead};

mod cells;
mod drafts;
mod outcomes;
mod refusals;
mod settling;

use book::Book;
pub use cells::Look;
pub use outcomes::{Clash, Outcome};
pub use refusals::Refusal;
use scale::Scale;

// A plan that takes filings: the first `count` facts of its table are filed. The table is the caller's, since a plan
// allocates nothing.
#[derive(Drop)]
pub struct Draft {
    count: usize,
}

// A plan whose course stands in its cells.
#[derive(Drop)]
pub struct Settled {
    count: usize,
}

// Holds that what settle answers is where the joint step leads, for every scale, book, house, draft, table and course:
// the joint step leaves a settled course as it is, and finitely many joint steps from the loosest course lead to it, or
// to a void cell where a contradiction names it. It does nothing when run.
pub fn steps_stand<S: Scale, B: Book<S>>()
    ensures { (b : B) (h : House' S) → StepsLead S.Scale.size S.Scale.has h (B.Book.formulas b) (B.Book.says b) }
{}
