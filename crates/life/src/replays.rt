// Lists of calls, played on a plan through the real calls. House, book, facts and course come side by side: a struct with the
// two `&mut` would need a clause in each contract that the same table and the same cells stay lent.
ghost use Rattle.std.specs.Prelude.{◌≡◌, MatchResult};
ghost use Rattle.life.specs.declared.calls.Plan.TheVariants.{Draft as Open, Settled as Firm};
ghost use Rattle.life.specs.Kinds.{plan_of, on_draft_lem, on_settled_lem, told, verdict};
ghost use Rattle.life.specs.Life.{allows, Plays};
ghost use Rattle.life.specs.Replayed.{Replayed, Stopped};

use super::{Answer, Call, Plan};
use book::Book;
use house::{Fact, House};
use plan::{Draft, Look, Outcome, Refusal, Settled};
use scale::Scale;
use std::alloc::{AllocError, Global};

// The answer of a call, or of its refusal.
fn told<S: Scale>(answered: Result<Answer<S>, Refusal>) -> Answer<S>
    ensures { result ≡ told (λ answer. answer) answered }
{
    match answered {
        Ok(answer) => answer,
        Err(refusal) => Answer::Refused(refusal),
    }
}

// The plan that settling gives back, and what it answers.
fn concluded<S: Scale>(outcome: Outcome) -> (Plan, Answer<S>)
    ensures plan { result.0 ≡ plan_of outcome }
    ensures answer { result.1 ≡ verdict outcome }
{
    match outcome {
        Outcome::Settled(settled) => (Plan::Settled(settled), Answer::Settled),
        Outcome::Contradiction { at, draft } => (Plan::Draft(draft), Answer::Contradiction(at)),
        Outcome::Refused { refusal, draft } => (Plan::Draft(draft), Answer::Refused(refusal)),
    }
}

// One call on a draft. Those that the build does not allow there are answered so, and change nothing.
fn on_draft<S: Scale, B: Book<S>>(
    house: &House<S>,
    book: &B,
    mut draft: Draft,
    call: &Call<S>,
    facts: &mut [Fact<S>],
    course: &mut [S],
) -> (Plan, Answer<S>)
    ensures { Plays S.Scale.size S.Scale.has house.now (B.Book.formulas book.now) (B.Book.says book.now) (on_draft_lem call.now) (Open draft) call.now (record { plan = Open draft; table = facts.old; cells = course.old }) result.1 (record { plan = result.0; table = facts.new; cells = course.new }) }
{
    match call {
        Call::File(fact) => {
            let filed = draft.file(house.sizes, facts, *fact);
            (Plan::Draft(draft), told(filed.and(Ok(Answer::Filed))))
        }
        Call::Strike(at) => {
            let struck = draft.strike(facts, *at);
            (Plan::Draft(draft), told(struck.and(Ok(Answer::Struck))))
        }
        Call::Settle => concluded(draft.settle(house, book, facts, course)),
        Call::Look(cell) => {
            let seen = draft.look(house.sizes, course, *cell);
            (Plan::Draft(draft), told(seen.map(Answer::Seen)))
        }
        Call::Reopen | Call::Entails(_) => (Plan::Draft(draft), Answer::Misplaced),
    }
}

// One call on a settled plan. Those that the build does not allow there are answered so, and change nothing.
fn on_settled<S: Scale, B: Book<S>>(
    house: &House<S>,
    book: &B,
    settled: Settled,
    call: &Call<S>,
    facts: &[Fact<S>],
    course: &[S],
) -> (Plan, Answer<S>)
    ensures { Plays S.Scale.size S.Scale.has house.now (B.Book.formulas book.now) (B.Book.says book.now) (on_settled_lem call.now) (Firm settled) call.now (record { plan = Firm settled; table = facts.now; cells = course.now }) result.1 (record { plan = result.0; table = facts.now; cells = course.now }) }
{
    match call {
        Call::Reopen => (Plan::Draft(settled.reopen()), Answer::Reopened),
        Call::Look(cell) => {
            let seen = settled.look(house.sizes, course, *cell);
            (Plan::Settled(settled), told(seen.map(Answer::Seen)))
        }
        // A match: a function that is passed on may not make a type whose scale its argument does not name.
        Call::Entails(fact) => match settled.entails(house.sizes, course, fact) {
            Ok(yes) => (Plan::Settled(settled), Answer::Entailed(yes)),
            Err(refusal) => (Plan::Settled(settled), Answer::Refused(refusal)),
        },
        Call::File(_) | Call::Strike(_) | Call::Settle => {
            (Plan::Settled(settled), Answer::Misplaced)
        }
    }
}

// One call of a list, by the real call. A call that the build does not allow on this plan is answered so, and changes
// nothing.
pub fn step<S: Scale, B: Book<S>>(
    house: &House<S>,
    book: &B,
    plan: Plan,
    call: &Call<S>,
    facts: &mut [Fact<S>],
    course: &mut [S],
) -> (Plan, Answer<S>)
    ensures { Plays S.Scale.size S.Scale.has house.now (B.Book.formulas book.now) (B.Book.says book.now) (allows plan call.now) plan call.now (record { plan = plan; table = facts.old; cells = course.old }) result.1 (record { plan = result.0; table = facts.new; cells = course.new }) }
{
    match plan {
        Plan::Draft(draft) => on_draft(house, book, draft, call, facts, course),
        Plan::Settled(settled) => on_settled(house, book, settled, call, facts, course),
    }
}

// Plays calls on a fresh plan, one after the other, with a table and cells that are its own, and answers what each
// answered.
pub fn replay<S: Scale, B: Book<S>>(
    heap: Global,
    house: &House<S>,
    book: &B,
    calls: &[Call<S>],
    facts: &mut [Fact<S>],
    course: &mut [S],
) -> Result<Vec<Answer<S>>, AllocError>
    ensures { MatchResult result (λ v. Replayed S.Scale.size S.Scale.has house.now (B.Book.formulas book.now) (B.Book.says book.now) calls.now v.items facts.old course.old facts.new course.new) (λ _. Stopped S.Scale.size S.Scale.has house.now (B.Book.formulas book.now) (B.Book.says book.now) calls.now facts.old course.old facts.new course.new) }
{
    let mut plan = Plan::Draft(Draft::open());
    let mut answers = Vec::new(heap);
    for call in calls {
        let (next, answer) = step(house, book, plan, call, facts, course);
        plan = next;
        answers.push(answer)?;
    }
    Ok(answers)
}
