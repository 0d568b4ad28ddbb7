// Writes to the cells of a course: narrowing a cell, laying facts, and starting an hour from the one before.
//
// Each contract says what the write makes of the course that the cells mean. Where there is no such cell nothing is
// written. The sizes and the cells come side by side: a struct with the `&mut` would need a clause in each contract
// that the same cells stay lent.
#![tactic(auto)]

ghost use Rattle.std.specs.Prelude.{◌≡◌, ◌≤◌, not, length};
ghost use Rattle.points.specs.Points.{within};
ghost use Rattle.house.specs.Cells.{covers};
ghost use Rattle.fitting.specs.Course.{course_of};
ghost use Rattle.fitting.specs.Step.{fact_grants};
ghost use Rattle.writes.specs.Written.{Whole, Narrowed, on_cell, at_hour, facts_grant, Freed, one_cell, covered, Repeats, Entered, Covered};

use house::{Cell, Fact, Sizes};
use scale::Scale;

// Where the entry of a cell stands, if there is such a cell and it has an entry. A place, and no loan of the entry: after
// one, as by `get_mut`, a proof no longer knows what the other cells hold. So the cells are written by index.
fn entry<S: Scale>(sizes: Sizes, cells: &[S], cell: Cell) -> Option<usize>
    ensures { Entered sizes (length cells.now) cell result }
{
    sizes.place(cell).filter(|at| *at < cells.len())
}

// Narrows a cell to the points that a bound has too.
#[tactic(auto, using(crate::proofs::CellSet::cell_narrowed, crate::proofs::CellSet::absent_narrowed))]
pub fn narrow_cell<S: Scale>(sizes: Sizes, cells: &mut [S], cell: Cell, bound: S)
    ensures { Narrowed (course_of sizes S.Scale.has cells.old) (on_cell cell.hour cell.component cell.label (S.Scale.has bound)) (course_of sizes S.Scale.has cells.new) }
{
    if let Some(at) = entry(sizes, cells, cell) {
        cells[at] = cells[at].meet(bound);
    }
}

// Narrows a cell unless it is within the bound already, and says whether it did.
pub fn tighten<S: Scale>(sizes: Sizes, cells: &mut [S], cell: Cell, bound: S) -> bool
    ensures narrowed { Narrowed (course_of sizes S.Scale.has cells.old) (on_cell cell.hour cell.component cell.label (S.Scale.has bound)) (course_of sizes S.Scale.has cells.new) }
    ensures tells { result ≡ not (within S.Scale.size (course_of sizes S.Scale.has cells.old cell.hour cell.component cell.label) (S.Scale.has bound)) }
{
    let Some(at) = entry(sizes, cells, cell) else {
        return false;
    };
    let former = cells[at];
    if former.within(bound) {
        return false;
    }
    cells[at] = former.meet(bound);
    true
}

// Makes a cell loose.
#[tactic(auto, using(crate::proofs::CellSet::cell_freed, crate::proofs::CellSet::absent_freed))]
pub fn free_cell<S: Scale>(sizes: Sizes, cells: &mut [S], cell: Cell)
    ensures { Whole sizes cells.old → Freed sizes S.Scale.size cell.hour (one_cell cell.component cell.label) (course_of sizes S.Scale.has cells.old) (course_of sizes S.Scale.has cells.new) }
{
    if let Some(at) = entry(sizes, cells, cell) {
        cells[at] = S::loose();
    }
}

// The cell that a fact covers at an hour, if it covers one.
fn covered_cell<S: Scale>(fact: &Fact<S>, hour: u8) -> Option<Cell>
    ensures { Covered fact.now hour result }
{
    let covers = (fact.from..=fact.to).contains(&hour);
    covers.then_some(fact.cell(hour))
}

// Narrows the cell that a fact covers at an hour, if it covers one, to the fact's bound.
pub fn lay_fact<S: Scale>(sizes: Sizes, fact: &Fact<S>, cells: &mut [S], hour: u8)
    ensures { Narrowed (course_of sizes S.Scale.has cells.old) (at_hour hour (λ t c l p. fact_grants S.Scale.has t c l p fact.now)) (course_of sizes S.Scale.has cells.new) }
{
    if let Some(cell) = covered_cell(fact, hour) {
        narrow_cell(sizes, cells, cell, fact.bound);
    }
}

// Narrows the cells of an hour to what every fact grants.
pub fn lay_facts<S: Scale>(sizes: Sizes, facts: &[Fact<S>], cells: &mut [S], hour: u8)
    ensures { Narrowed (course_of sizes S.Scale.has cells.old) (at_hour hour (facts_grant S.Scale.has facts.now)) (course_of sizes S.Scale.has cells.new) }
{
    // By index: the project fixes this form here, since facts are filed, struck and refused by their places.
    for i in 0..facts.len() {
        lay_fact(sizes, &facts[i], cells, hour);
    }
}

// Makes the cell loose that a fact covers at an hour, if it covers one.
#[tactic(auto, using(crate::proofs::Narrowing::fact_frees, crate::proofs::Narrowing::freed_none))]
pub fn free_fact<S: Scale>(sizes: Sizes, fact: &Fact<S>, cells: &mut [S], hour: u8)
    ensures { Whole sizes cells.old → Freed sizes S.Scale.size hour (λ c l. covers hour c l fact.now) (course_of sizes S.Scale.has cells.old) (course_of sizes S.Scale.has cells.new) }
{
    if let Some(cell) = covered_cell(fact, hour) {
        free_cell(sizes, cells, cell);
    }
}

// Makes the cells of an hour loose that some fact covers.
pub fn free_facts<S: Scale>(sizes: Sizes, facts: &[Fact<S>], cells: &mut [S], hour: u8)
    ensures { Whole sizes cells.old → Freed sizes S.Scale.size hour (covered facts.now hour) (course_of sizes S.Scale.has cells.old) (course_of sizes S.Scale.has cells.new) }
{
    for fact in facts {
        free_fact(sizes, fact, cells, hour);
    }
}

// Starts an hour as the one before it ended. At hour 0 there is none, and nothing is written.
pub fn repeat_hour<S: Scale>(sizes: Sizes, cells: &mut [S], hour: u8)
    ensures { Whole sizes cells.old → hour ≤ sizes.last → Repeats hour (course_of sizes S.Scale.has cells.old) (course_of sizes S.Scale.has cells.new) }
{
    let row = sizes.components() * sizes.moving as usize;
    let start = hour as usize * row;
    if hour >= 1 && start + row <= cells.len() {
        cells.copy_within(start - row..start, start);
    }
}
