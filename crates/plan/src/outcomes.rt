// What settling comes to.
ghost use Rattle.std.specs.Prelude.{◌≡◌, Some};
ghost use Rattle.plan.specs.Refusals.{clash_number};
ghost use Rattle.plan.specs.Texts.{clash_text};

use super::{Draft, Refusal, Settled};
use house::Cell;
use std::fmt;

// The cell that a contradiction names: of the cells that are void in every course that fits, the first. Cells are in the
// order of their hours, then of their components, then of their labels, and `place` is the place in that order.
#[derive(Clone, Copy, PartialEq, Eq, Debug)]
pub struct Clash {
    pub cell: Cell,
    pub place: usize,
}

impl Clash {
    // The number of a contradiction among the refusals.
    pub fn number(self) -> u8
        ensures { result ≡ clash_number }
    {
        14
    }
}

// The text of a contradiction: the cell that it names.
impl fmt::Display for Clash {
    ghost output = { λ r. Some (clash_text r.cell.hour r.cell.component r.cell.label) };

    fn fmt<W: fmt::Write>(&self, f: &mut fmt::Formatter<W>) -> fmt::Result {
        let Cell {
            hour,
            component,
            label,
        } = self.cell;
        write!(f, "contradiction {hour} {component} {label}")
    }
}

// A plan that was to be settled comes back in each case.
#[derive(Drop)]
pub enum Outcome {
    // The course stands in the cells.
    Settled(Settled),
    // No course without a void cell fits. All cells are loose.
    Contradiction { at: Clash, draft: Draft },
    // Nothing was done.
    Refused { refusal: Refusal, draft: Draft },
}
