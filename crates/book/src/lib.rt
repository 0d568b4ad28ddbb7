// Books of formulas: how neighbours press on a part.
//
// A formula says a bound for every count of neighbours: x of them qualify among y that are eligible. Code and contracts
// alike speak of "f at x of y", so these stay three arguments and are no struct.
#![tactic(auto)]

ghost use Rattle.std.specs.Prelude.{◌≡◌, ℕ, ◌≤◌, true};
ghost use Rattle.points.specs.Points.{Points, Same};
ghost use Rattle.book.specs.Meaning.{answered};

use scale::Scale;

mod counts;
mod quorums;
mod shares;
mod steps;

pub use counts::{CountStep, CountingBook};
pub use quorums::{Quorum, QuorumTooLarge};
pub use shares::{Stair, Stairs};
pub use steps::{Step, StepBook, step_laws_stand};

// The most eligible neighbours that a formula speaks of, and so the largest quorum.
pub const MOST_ELIGIBLE: u8 = 200;

pub trait Book<S: Scale> {
    // How many formulas the book has; they are numbered from 0.
    ghost formulas: { Self → ℕ };

    // Which points formula f says at x of y. This is its meaning where x ≤ y ≤ 200.
    ghost says: { Self → ℕ → ℕ → ℕ → Points };

    // How many formulas the book has.
    fn count(&self) -> u16
        ensures { result ≡ formulas self.now };

    // What formula f says at x of y; loose if there is no such formula, or not x ≤ y ≤ 200.
    fn answer(&self, f: u16, x: u16, y: u16) -> S
        ensures { Same (S.Scale.has result) (answered S.Scale.size (formulas self.now) (says self.now) f x y) };

    // As more neighbours qualify, a formula only narrows.
    ghost narrows: { (b : Self) (f x z y p : ℕ) → x ≤ z → z ≤ y → y ≤ 200 → says b f z y p ≡ true → says b f x y p ≡ true };
}
