// Tests, bodies, conditions and neighbours on a course.
//
// Nothing is asked of what is handed in: where a table or the cells have no such place there is no point, and the
// definitions say what follows. House, cells and spot come side by side: settling writes to the cells between two
// questions, so that a struct of the three would be made anew for each.
#![tactic(auto)]

ghost use Rattle.std.specs.Prelude.{◌≡◌, ℕ, true, false};
ghost use Rattle.points.specs.Points.{Same};
ghost use Rattle.fitting.specs.Course.{course_of};
ghost use Rattle.fitting.specs.Tests.{meets, fixed_at, seen, test_met_lem, body_met_lem};
ghost use Rattle.judge.specs.Judged.{points_of};

mod counts;
mod verdicts;

pub use counts::{Count, neighbours};
use house::{Body, Cell, House};
use scale::Scale;
pub use verdicts::{Verdicts, held_on};

// A component at an hour.
#[derive(Clone, Copy, PartialEq, Eq, Debug)]
pub struct Spot {
    pub hour: u8,
    pub component: u16,
}

impl Spot {
    // The cell of a label there.
    pub fn cell(self, label: u8) -> Cell
        ensures { result ≡ record { hour = self.hour; component = self.component; label = label } }
    {
        Cell {
            hour: self.hour,
            component: self.component,
            label,
        }
    }
}

// Whether a cell meets a test's bound: that bound is not void, and the cell is within it.
#[tactic(auto, unfolding(fitting::specs::Tests::meets))]
pub fn meets<S: Scale>(cell: S, bound: S) -> bool
    ensures { result ≡ meets S.Scale.size (S.Scale.has cell) (S.Scale.has bound) }
{
    !bound.void() && cell.within(bound)
}

// Whether what is seen meets a test's bound. What is not there has no point, so it is within every bound.
fn met_by<S: Scale>(seen: Option<S>, bound: S) -> bool
    ensures { result ≡ meets S.Scale.size (points_of S.Scale.has seen) (S.Scale.has bound) }
{
    match seen {
        Some(cell) => meets(cell, bound),
        None => !bound.void(),
    }
}

// The fixed bound of a component at a fixed label.
fn fixed_bound<S: Scale>(house: &House<S>, component: u16, label: u8) -> Option<S>
    ensures { Same (points_of S.Scale.has result) (fixed_at S.Scale.has house.now component label) }
{
    let at = house.sizes.fixed_place(component, label);
    house.fixed.get(at).copied()
}

// What a test of a label looks at on a component at an hour: its fixed bound, or its cell.
pub fn seen<S: Scale>(house: &House<S>, cells: &[S], spot: Spot, label: u8) -> Option<S>
    ensures { Same (points_of S.Scale.has result) (seen S.Scale.has house.now (course_of house.now.sizes S.Scale.has cells.now) spot.hour spot.component label) }
{
    if label < house.sizes.fixed {
        return fixed_bound(house, spot.component, label);
    }
    let at = house.sizes.place(spot.cell(label))?;
    cells.get(at).copied()
}

// Whether test i is met on a component at an hour.
pub fn test_met<S: Scale>(house: &House<S>, cells: &[S], spot: Spot, i: usize) -> bool
    ensures { result ≡ test_met_lem S.Scale.size S.Scale.has house.now (course_of house.now.sizes S.Scale.has cells.now) spot.hour spot.component i }
{
    let Some(test) = house.tests.get(i) else {
        return false;
    };
    met_by(seen(house, cells, spot, test.label), test.bound)
}

// Whether a body is met on a component at an hour: all its tests are.
pub fn body_met<S: Scale>(house: &House<S>, cells: &[S], spot: Spot, body: Body) -> bool
    ensures { result ≡ body_met_lem S.Scale.size S.Scale.has house.now (course_of house.now.sizes S.Scale.has cells.now) spot.hour spot.component body }
{
    let first = body.first as usize;
    (0..body.count).all(|k| test_met(house, cells, spot, first + k as usize))
}
