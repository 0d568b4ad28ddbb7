// Stairs: steps that are reached at a share of the eligible neighbours.
ghost use Rattle.book.specs.Steps.{share_reached};
ghost use Rattle.std.proofs.Common.{rules};

use super::{Step, StepBook};
use scale::Scale;

// A step that is reached once `share` thousandths of the eligible neighbours qualify, and never where none is eligible.
#[derive(Clone, Copy, Debug)]
pub struct Stair<S> {
    pub formula: u8,
    pub share: u16,
    pub bound: S,
}

// A book over stairs that are lent.
pub type Stairs<'a, S> = StepBook<Stair<S>, &'a [Stair<S>]>;

impl<S: Scale> Step<S> for Stair<S> {
    ghost number = { λ t. t.formula };

    ghost limit = { λ t. t.bound };

    ghost reaches = { λ t. share_reached t.share };

    ghost stays = { Prim.search rules };

    fn formula(self) -> u8 {
        self.formula
    }

    fn bound(self) -> S {
        self.bound
    }

    fn reached(self, x: u16, y: u16) -> bool {
        y >= 1 && 1000 * u32::from(x) >= u32::from(self.share) * u32::from(y)
    }
}
