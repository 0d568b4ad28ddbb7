// Counting books: steps that are reached at a number of qualifying neighbours.
ghost use Rattle.book.specs.Steps.{least_reached};
ghost use Rattle.std.proofs.Common.{rules};

use super::{Step, StepBook};
use scale::Scale;

// A step that is reached once `least` neighbours qualify, of however many.
#[derive(Clone, Copy, Debug)]
pub struct CountStep<S> {
    pub formula: u8,
    pub least: u16,
    pub bound: S,
}

// A book over counting steps that are lent.
pub type CountingBook<'a, S> = StepBook<CountStep<S>, &'a [CountStep<S>]>;

impl<S: Scale> Step<S> for CountStep<S> {
    ghost number = { λ t. t.formula };

    ghost limit = { λ t. t.bound };

    ghost reaches = { λ t. least_reached t.least };

    ghost stays = { Prim.search rules };

    fn formula(self) -> u8 {
        self.formula
    }

    fn bound(self) -> S {
        self.bound
    }

    fn reached(self, x: u16, _y: u16) -> bool {
        x >= self.least
    }
}
