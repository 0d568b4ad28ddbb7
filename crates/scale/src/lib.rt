// Scales: what a bound is and how bounds are compared.
//
// A scale has finitely many points, numbered from 0. A bound means a set of points. Everything a scale does is said by
// the points of the bounds alone, so two values of one type may mean the same bound: no code over a scale compares
// bounds by `==`, and "the same" is "within" both ways.
#![tactic(auto)]

ghost use Rattle.std.specs.Prelude.{◌≡◌, ℕ, ◌<◌, true};
ghost use Rattle.points.specs.Points.{Iff, Points, Loose, Meet, within, void, is_loose};
ghost use Rattle.scale.specs.Laws.{Laws};

mod forms;
mod ranges;
mod sets;

pub use forms::{NotABound, Recorded, form_laws_stand};
pub use ranges::{NotARange, Thousandths, ranges_apart};
pub use sets::{Modes, sets_apart};

pub trait Scale: Copy {
    // How many points the scale has: 0 up to `size` - 1. There may be none.
    ghost size: { ℕ };

    // Which points a bound has.
    ghost has: { Self → Points };

    // The bound of all points.
    fn loose() -> Self
        ensures { Loose size (has result) };

    // The bound of exactly the points of both.
    fn meet(self, other: Self) -> Self
        ensures { Meet (has self) (has other) (has result) };

    // Whether every point of this bound is one of the other.
    fn within(self, other: Self) -> bool
        ensures { result ≡ within size (has self) (has other) };

    // Whether this bound has no point.
    fn void(self) -> bool
        ensures { result ≡ void size (has self) };

    // Whether this bound has every point.
    final fn is_loose(self) -> bool
        ensures answer { result ≡ is_loose size (has self) }
        ensures means { Iff (result ≡ true) (Loose size (has self)) }
    {
        Self::loose().within(self)
    }

    // A bound has points of the scale only.
    ghost inside: { (s : Self) (p : ℕ) → has s p ≡ true → p < size };
}

// The laws of bounds, for every scale: a theorem, with nothing to run.
pub fn laws_stand<S: Scale>()
    ensures { Laws S.Scale.size S.Scale.has }
{}
