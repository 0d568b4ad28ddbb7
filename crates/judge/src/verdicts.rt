// Which conditions hold on a component. They look at its fixed bounds alone, so they are worked out once.
ghost use Rattle.std.specs.Prelude.{◌≡◌, false, slice_index_or};
ghost use Rattle.fitting.specs.Conditions.{fixed_met_lem, verdict};
ghost use Rattle.judge.specs.Judged.{held_by, held_on_lem, Judges};

use super::{fixed_bound, met_by};
use house::{Condition, House, Kind};
use scale::Scale;

// What the first 64 conditions of a house say on one component. An array of fixed length: settling takes no memory from a
// heap.
#[derive(Clone, Copy, PartialEq, Eq, Debug)]
pub struct Verdicts {
    said: [bool; 64],
}

impl Verdicts {
    // Works out the conditions on a component, one after the other, each by what the earlier ones say.
    pub fn of<S: Scale>(house: &House<S>, component: u16) -> Verdicts
        ensures { Judges S.Scale.size S.Scale.has house.now component result }
    {
        let mut said = [false; 64];
        for (i, condition) in house.conditions.iter().take(64).enumerate() {
            let answer = judged(house, component, &said, *condition);
            // By index: the answers so far are read while the next is worked out.
            said[i] = answer;
        }
        Verdicts { said }
    }

    // Whether a condition holds. Where none is named, every one will do.
    #[tactic(auto, unfolding(crate::specs::Judged::held_by))]
    pub fn holds(&self, condition: Option<u8>) -> bool
        ensures { result ≡ held_by condition self.now }
    {
        condition.is_none_or(|number| known(&self.said, number))
    }
}

// Whether a condition holds on a component, by the verdicts on all components.
pub fn held_on(verdicts: &[Verdicts], condition: Option<u8>, component: usize) -> bool
    ensures { result ≡ held_on_lem verdicts.now condition component }
{
    verdicts
        .get(component)
        .is_some_and(|found| found.holds(condition))
}

// What is known of a condition so far.
fn known(said: &[bool], condition: u8) -> bool
    ensures { result ≡ slice_index_or said.now condition false }
{
    said.get(condition as usize).copied().unwrap_or(false)
}

// What a condition says on a component, where `said` is what the earlier ones say.
#[tactic(auto, unfolding(fitting::specs::Conditions::verdict))]
fn judged<S: Scale>(house: &House<S>, component: u16, said: &[bool], condition: Condition) -> bool
    ensures { result ≡ verdict S.Scale.size S.Scale.has house.now component (λ j. slice_index_or said.now j false) condition }
{
    let first = known(said, condition.a);
    let second = known(said, condition.b);
    match condition.kind {
        Kind::Test => fixed_met(house, component, condition.a as usize),
        Kind::Not => !first,
        Kind::Both => first && second,
        Kind::Either | Kind::Unknown(_) => first || second,
    }
}

// Whether test i is met by a component's fixed bound.
fn fixed_met<S: Scale>(house: &House<S>, component: u16, i: usize) -> bool
    ensures { result ≡ fixed_met_lem S.Scale.size S.Scale.has house.now component i }
{
    let Some(test) = house.tests.get(i) else {
        return false;
    };
    met_by(fixed_bound(house, component, test.label), test.bound)
}
