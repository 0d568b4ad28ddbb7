// Looking at a cell, and asking what the cells entail.
ghost use Rattle.std.specs.Prelude.{◌≡◌, true, length};
ghost use Rattle.points.specs.Points.{Iff};
ghost use Rattle.house.specs.Cells.{cell_count};
ghost use Rattle.fitting.specs.Course.{course_of};
ghost use Rattle.plan.specs.Courses.{Satisfies, SatisfiesAt};
ghost use Rattle.plan.specs.Calls.{LookDoes, EntailsDoes};

use super::{Draft, Refusal, Settled};
use examining::{check_sizes, require};
use house::{Cell, Fact, Sizes};
use scale::Scale;

// What a plan shows in either phase.
pub trait Look {
    // The bound that a cell of the course holds now, whatever that is. Refuses a size outside its limits, then a course
    // of another length, then a cell that the house does not have.
    fn look<S: Scale>(&self, sizes: Sizes, course: &[S], cell: Cell) -> Result<S, Refusal>
        ensures { LookDoes sizes cell course.now result }
    {
        check_sizes(sizes)?;
        require(course.len() == sizes.cells(), Refusal::Length)?;
        let place = sizes.place(cell).ok_or(Refusal::NoCell)?;
        Ok(course[place])
    }
}

impl Look for Draft {}

impl Look for Settled {}

// Whether the cell of a fact at an hour, if there is such a cell, is within its bound, in a course of the right length.
fn satisfied_at<S: Scale>(sizes: Sizes, course: &[S], fact: &Fact<S>, hour: u8) -> bool
    requires { length course.now ≡ cell_count sizes }
    ensures { Iff (result ≡ true) (SatisfiesAt S.Scale.has sizes (course_of sizes S.Scale.has course.now) fact.now hour) }
{
    let Some(place) = sizes.place(fact.cell(hour)) else {
        return true;
    };
    course[place].within(fact.bound)
}

// Whether each cell that a fact covers is within its bound, in a course of the right length.
fn satisfied<S: Scale>(sizes: Sizes, course: &[S], fact: &Fact<S>) -> bool
    requires { length course.now ≡ cell_count sizes }
    ensures { Iff (result ≡ true) (Satisfies S.Scale.has sizes (course_of sizes S.Scale.has course.now) fact.now) }
{
    (fact.from..=fact.to).all(|hour| satisfied_at(sizes, course, fact, hour))
}

impl Settled {
    // Whether the course satisfies a fact: every cell that the fact covers is within its bound. Refuses a size outside
    // its limits, then a course of another length, then a fact outside the house.
    pub fn entails<S: Scale>(
        &self,
        sizes: Sizes,
        course: &[S],
        fact: &Fact<S>,
    ) -> Result<bool, Refusal>
        ensures { EntailsDoes S.Scale.has sizes fact.now course.now result }
    {
        check_sizes(sizes)?;
        require(course.len() == sizes.cells(), Refusal::Length)?;
        require(fact.inside(sizes), Refusal::Outside { at: 0 })?;
        Ok(satisfied(sizes, course, fact))
    }
}
