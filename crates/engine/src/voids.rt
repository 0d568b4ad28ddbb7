// Cells without a point, and cells with every point.
ghost use Rattle.fitting.specs.Course.{course_of};
ghost use Rattle.writes.specs.Written.{Whole};
ghost use Rattle.engine.specs.Voids.{AllLoose, Numbered, CellAt, FirstVoid};

use house::{Cell, Sizes};
use scale::Scale;

// Makes every cell loose.
pub fn loosen<S: Scale>(course: &mut [S])
    ensures { AllLoose S.Scale.size S.Scale.has course.new }
{
    let loose = S::loose();
    course.fill_with(|| loose);
}

// The cell that stands at a place, if there is one: cells stand hour by hour, in an hour component by component, there
// label by label.
fn cell_at(sizes: Sizes, at: usize) -> Option<Cell>
    ensures { Numbered sizes → CellAt sizes at result }
{
    if at >= sizes.cells() {
        return None;
    }
    let moving = sizes.moving as usize;
    let row = at / moving;
    let component = row % sizes.components();
    Some(Cell {
        hour: (row / sizes.components()) as u8,
        component: u16::try_from(component).unwrap_or(u16::MAX),
        label: sizes.fixed.saturating_add((at % moving) as u8),
    })
}

// The first cell, in the order of cells, that has no point. None if every cell has one.
pub fn first_void<S: Scale>(sizes: Sizes, course: &[S]) -> Option<Cell>
    ensures { Numbered sizes → Whole sizes course.now → FirstVoid sizes (course_of sizes S.Scale.has course.now) result }
{
    let at = course.iter().position(|cell| cell.void())?;
    cell_at(sizes, at)
}
