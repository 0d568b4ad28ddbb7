// Books of steps: a formula is made of steps, and each step that is reached narrows it.
//
// A step is of one formula, and says a bound once it is reached. Kinds of step differ only in when one is reached; each is
// a struct of its own, since whoever fills one in names what it counts, `share` or `least`.
ghost use Rattle.std.specs.Prelude.{◌≡◌, ℕ, ◌+◌, ◌≤◌, max, Bool, true, false};
ghost use Rattle.points.specs.Points.{Same, Meet};
ghost use Rattle.book.specs.Meaning.{asked, answered};
ghost use Rattle.book.specs.Steps.{formulas_of, presses, said, StepLaws};
ghost use Rattle.book.specs.Saying.{said_narrows};

use super::{Book, MOST_ELIGIBLE};
use scale::Scale;
use std::convert::AsSlice;
use std::marker::PhantomData;

pub trait Step<S: Scale>: Copy {
    // The formula that the step is of.
    ghost number: { Self → ℕ };

    // The bound that the step says once it is reached.
    ghost limit: { Self → S };

    // Whether the step is reached at x of y.
    ghost reaches: { Self → ℕ → ℕ → Bool };

    fn formula(self) -> u8
        ensures { result ≡ number self };

    fn bound(self) -> S
        ensures { result ≡ limit self };

    fn reached(self, x: u16, y: u16) -> bool
        ensures { result ≡ reaches self x y };

    // A step stays reached as more neighbours qualify.
    ghost stays: { (t : Self) (x z y : ℕ) → x ≤ z → z ≤ y → y ≤ 200 → reaches t x y ≡ true → reaches t z y ≡ true };
}

// A book over a list of steps of one kind: whatever lends a slice of them, as a lent slice, an array or a `Vec` does.
#[derive(Clone, Copy, Debug)]
pub struct StepBook<T, L> {
    steps: L,
    kind: PhantomData<T>,
}

impl<T, L> StepBook<T, L> {
    // The book over these steps.
    pub fn over(steps: L) -> StepBook<T, L>
        ensures { result.steps ≡ steps }
    {
        StepBook {
            steps,
            kind: PhantomData,
        }
    }
}

// Whether the step is of formula f and reached at x of y.
fn presses<S: Scale, T: Step<S>>(step: T, f: u16, x: u16, y: u16) -> bool
    ensures { result ≡ presses T.Step.number T.Step.reaches f x y step }
{
    u16::from(step.formula()) == f && step.reached(x, y)
}

// The meet of the bounds of the steps of formula f that are reached at x of y; loose if there is none.
fn met<S: Scale, T: Step<S>>(steps: &[T], f: u16, x: u16, y: u16) -> S
    ensures { Same (S.Scale.has result) (said T.Step.number T.Step.reaches (λ t. S.Scale.has (T.Step.limit t)) S.Scale.size steps.now f x y) }
{
    steps
        .iter()
        .filter(|step| presses(**step, f, x, y))
        .fold(S::loose(), |bound, step| bound.meet(step.bound()))
}

// One formula more than the highest that a step is of; none if there is no step.
fn counted<S: Scale, T: Step<S>>(steps: &[T]) -> u16
    ensures { result ≡ formulas_of T.Step.number steps.now }
{
    steps
        .iter()
        .map(|step| u16::from(step.formula()) + 1)
        .max()
        .unwrap_or(0)
}

// Whether f is one of the formulas, and x ≤ y ≤ 200.
fn asks(formulas: u16, f: u16, x: u16, y: u16) -> bool
    ensures { result ≡ asked formulas f x y }
{
    f < formulas && x <= y && y <= u16::from(MOST_ELIGIBLE)
}

// What formula f says at x of y; loose if no step is of f or above, or not x ≤ y ≤ 200. A function of its own when it runs, too:
// settling asks it for each rule and node, and its loops over the steps are slower among those of settling.
#[inline(never)]
fn told<S: Scale, T: Step<S>>(steps: &[T], f: u16, x: u16, y: u16) -> S
    ensures { Same (S.Scale.has result) (answered S.Scale.size (formulas_of T.Step.number steps.now) (said T.Step.number T.Step.reaches (λ t. S.Scale.has (T.Step.limit t)) S.Scale.size steps.now) f x y) }
{
    if asks(counted(steps), f, x, y) {
        met(steps, f, x, y)
    } else {
        S::loose()
    }
}

impl<S: Scale, T: Step<S>, L: AsSlice<T>> Book<S> for StepBook<T, L> {
    ghost formulas = { λ b. formulas_of T.Step.number (L.AsSlice.items b.steps) };

    ghost says = { λ b. said T.Step.number T.Step.reaches (λ t. S.Scale.has (T.Step.limit t)) S.Scale.size (L.AsSlice.items b.steps) };

    ghost narrows = { λ b. said_narrows _ _ _ _ T.Step.stays _ };

    fn count(&self) -> u16 {
        counted(self.steps.as_slice())
    }

    fn answer(&self, f: u16, x: u16, y: u16) -> S {
        told(self.steps.as_slice(), f, x, y)
    }
}

// What steps mean, for every kind of step: a theorem, with nothing to run.
pub fn step_laws_stand<S: Scale, T: Step<S>>()
    ensures { StepLaws T.Step.number T.Step.reaches (λ t. S.Scale.has (T.Step.limit t)) S.Scale.size }
{}
