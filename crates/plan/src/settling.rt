// Settling a draft.
ghost use Rattle.std.specs.Prelude.{◌≡◌, [], ◌∷◌, not, position};
ghost use Rattle.house.specs.Cells.{fact_inside};
ghost use Rattle.plan.specs.Calls.{SettleDoes};
ghost use Rattle.plan.specs.Orders.{Checked, facts_fit, settle_checks};
ghost use Rattle.plan.specs.Courses.{Clashes};

use super::{Clash, Draft, Outcome, Refusal, Settled};
use book::Book;
use engine::{first_void, loosen, settle_hours};
use examining::{examine, require};
use house::{Cell, Fact, House, Sizes};
use scale::Scale;

// The place of the first of the filed facts that is outside the house.
fn outside<S: Scale>(sizes: Sizes, filed: &[Fact<S>]) -> Option<usize>
    ensures { result ≡ position (λ fact. not (fact_inside sizes fact)) filed.now }
{
    filed.iter().position(|fact| !fact.inside(sizes))
}

// Refuses the first of the filed facts that is outside the house, by its place.
fn check_facts<S: Scale>(sizes: Sizes, filed: &[Fact<S>]) -> Result<(), Refusal>
    ensures { Checked (facts_fit sizes filed.now ∷ []) result }
{
    outside(sizes, filed).map_or(Ok(()), |at| Err(Refusal::Outside { at }))
}

// Whether a plan of `count` facts can be settled on a course of `long` cells.
fn check_settle<S: Scale, B: Book<S>>(
    house: &House<S>,
    book: &B,
    count: usize,
    facts: &[Fact<S>],
    long: usize,
) -> Result<(), Refusal>
    ensures { Checked (settle_checks S.Scale.size S.Scale.has house.now (B.Book.formulas book.now) count facts.now long) result }
{
    examine(house, book)?;
    require(count <= facts.len(), Refusal::Short)?;
    check_facts(house.sizes, &facts[..count])?;
    require(long == house.sizes.cells(), Refusal::Length)?;
    Ok(())
}

// A cell with its place.
fn clash(sizes: Sizes, cell: Cell) -> Clash
    ensures { Clashes sizes cell result }
{
    Clash {
        cell,
        place: sizes.place(cell).unwrap_or(0),
    }
}

impl Draft {
    // Settles the draft: the cells then hold the loosest course that fits the house and the filed facts. If that has a
    // void cell, no course without one fits: this is a contradiction, which names the first void cell, makes every cell
    // loose and gives the draft back. What the cells held before is not looked at. Refuses what examine refuses, then a
    // table shorter than the count, then the first filed fact outside the house, then a course of another length.
    pub fn settle<S: Scale, B: Book<S>>(
        self,
        house: &House<S>,
        book: &B,
        facts: &[Fact<S>],
        course: &mut [S],
    ) -> Outcome
        ensures { SettleDoes S.Scale.size S.Scale.has house.now (B.Book.formulas book.now) (B.Book.says book.now) self facts.now course.old result course.new }
    {
        if let Err(refusal) = check_settle(house, book, self.count, facts, course.len()) {
            return Outcome::Refused {
                refusal,
                draft: self,
            };
        }
        settle_hours(house, book, &facts[..self.count], course);
        match first_void(house.sizes, course) {
            Some(cell) => {
                loosen(course);
                Outcome::Contradiction {
                    at: clash(house.sizes, cell),
                    draft: self,
                }
            }
            None => {
                let Draft { count } = self;
                Outcome::Settled(Settled { count })
            }
        }
    }
}
