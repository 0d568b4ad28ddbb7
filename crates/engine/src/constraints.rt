// Constraints at an hour: each looks at the cells of one component and narrows one of them.
ghost use Rattle.std.specs.Prelude.{◌≡◌, ℕ, ◌<◌, ◌≤◌, true, false, length, nat_eq};
ghost use Rattle.house.specs.Cells.{components};
ghost use Rattle.fitting.specs.Course.{course_of};
ghost use Rattle.fitting.specs.Step.{constraint_grants};
ghost use Rattle.writes.specs.Written.{Narrowed};
ghost use Rattle.engine.specs.Pressed.{on_those};
ghost use Rattle.engine.specs.Constrained.{Elsewhere, fires, spent_count, Resting, Constrained};

use super::components;
use house::{Constraint, House};
use judge::{Spot, body_met};
use scale::Scale;
use writes::tighten;

// Applies the constraints to every component, until they grant all that is left.
pub(super) fn constrain_hour<S: Scale>(house: &House<S>, cells: &mut [S], hour: u8)
    ensures narrowed { Constrained S.Scale.size S.Scale.has house.now hour (course_of house.now.sizes S.Scale.has cells.old) (course_of house.now.sizes S.Scale.has cells.new) }
    ensures rests { components house.now.sizes ≤ 65535 → (c : ℕ) → c < components house.now.sizes → Resting S.Scale.size S.Scale.has house.now hour c (course_of house.now.sizes S.Scale.has cells.new) }
{
    for component in 0..components(house.sizes) {
        constrain(house, cells, Spot { hour, component });
    }
}

// Applies the constraints to one component, pass after pass, until a pass changes nothing. A constraint that has
// narrowed its cell does not do so again, so that this ends.
fn constrain<S: Scale>(house: &House<S>, cells: &mut [S], spot: Spot)
    ensures narrowed { Constrained S.Scale.size S.Scale.has house.now spot.hour (course_of house.now.sizes S.Scale.has cells.old) (course_of house.now.sizes S.Scale.has cells.new) }
    ensures elsewhere { Elsewhere spot.hour spot.component (course_of house.now.sizes S.Scale.has cells.old) (course_of house.now.sizes S.Scale.has cells.new) }
    ensures rests { Resting S.Scale.size S.Scale.has house.now spot.hour spot.component (course_of house.now.sizes S.Scale.has cells.new) }
{
    while pass(house, cells, spot) {}
}

// Applies each constraint once to a component, and says whether one narrowed a cell.
fn pass<S: Scale>(house: &House<S>, cells: &mut [S], spot: Spot) -> bool
    ensures narrowed { Constrained S.Scale.size S.Scale.has house.now spot.hour (course_of house.now.sizes S.Scale.has cells.old) (course_of house.now.sizes S.Scale.has cells.new) }
    ensures elsewhere { Elsewhere spot.hour spot.component (course_of house.now.sizes S.Scale.has cells.old) (course_of house.now.sizes S.Scale.has cells.new) }
    ensures rests { result ≡ false → Resting S.Scale.size S.Scale.has house.now spot.hour spot.component (course_of house.now.sizes S.Scale.has cells.new) }
    ensures spends { result ≡ true → spent_count S.Scale.size S.Scale.has house.now (course_of house.now.sizes S.Scale.has cells.old) spot.hour spot.component < spent_count S.Scale.size S.Scale.has house.now (course_of house.now.sizes S.Scale.has cells.new) spot.hour spot.component }
{
    let mut fired = false;
    for constraint in house.constraints {
        if apply(house, cells, spot, *constraint) {
            fired = true;
        }
    }
    fired
}

// Applies one constraint to a component, and says whether it narrowed a cell: where its body is met, and the cell of
// its head is not within the head's bound.
fn apply<S: Scale>(house: &House<S>, cells: &mut [S], spot: Spot, constraint: Constraint) -> bool
    ensures narrowed { Narrowed (course_of house.now.sizes S.Scale.has cells.old) (on_those spot.hour (λ c. nat_eq c spot.component) (λ t c l p. constraint_grants S.Scale.size S.Scale.has house.now (course_of house.now.sizes S.Scale.has cells.old) t c l p constraint))
        (course_of house.now.sizes S.Scale.has cells.new) }
    ensures tells { result ≡ fires S.Scale.size S.Scale.has house.now (course_of house.now.sizes S.Scale.has cells.old) spot.hour spot.component constraint }
{
    let Some(head) = house.tests.get(constraint.head as usize) else {
        return false;
    };
    if !body_met(house, cells, spot, constraint.body) {
        return false;
    }
    tighten(house.sizes, cells, spot.cell(head.label), head.bound)
}
