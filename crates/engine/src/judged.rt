// A house with the verdicts on its components, worked out once for all hours.
ghost use Rattle.std.specs.Prelude.{◌≡◌, ◌<◌, ◌≤◌};
ghost use Rattle.house.specs.Cells.{components};
ghost use Rattle.fitting.specs.Course.{course_of};
ghost use Rattle.fitting.specs.Conditions.{holds};
ghost use Rattle.fitting.specs.Neighbours.{eligibles, qualified};
ghost use Rattle.judge.specs.Judged.{AllJudged};
ghost use Rattle.engine.specs.Ready.{Judgeable};

use super::components;
use house::{House, Rule};
use judge::{Count, Spot, Verdicts, held_on, neighbours};
use scale::Scale;

// The most components that a house can have.
pub(super) const MOST_COMPONENTS: usize = 800;

// A house, and the verdicts on each of its components. They lie in room that the caller has, since a struct that held them
// would have them copied into it.
#[derive(Drop)]
pub(super) struct Judged<'a, S: Scale> {
    pub(super) house: &'a House<'a, S>,
    verdicts: &'a [Verdicts],
    // If there is room for all components, these are the verdicts on them.
    ghost judged: { components house.now.sizes ≤ 800 → AllJudged S.Scale.size S.Scale.has house.now verdicts.now },
}

impl<'a, S: Scale> Judged<'a, S> {
    // Works out which conditions hold on every component, in the room for them. Places past the last component stay as
    // they were.
    pub(super) fn of(
        house: &'a House<'a, S>,
        room: &'a mut [Verdicts; MOST_COMPONENTS],
    ) -> Judged<'a, S>
        ensures { result.house.now ≡ house.now }
    {
        // By index, up to the last component: after an adapter of `iter_mut` a proof no longer knows what the room holds.
        for component in 0..components(house.sizes).min(MOST_COMPONENTS as u16) {
            room[component as usize] = Verdicts::of(house, component);
        }
        Judged {
            house,
            verdicts: room,
        }
    }

    // Whether a condition holds on a component.
    pub(super) fn holds(&self, condition: Option<u8>, component: u16) -> bool
        ensures { Judgeable S.Scale.size S.Scale.has self.now.house.now → component < components self.now.house.now.sizes → result ≡ holds S.Scale.size S.Scale.has self.now.house.now condition component }
    {
        held_on(self.verdicts, condition, component as usize)
    }

    // Counts the neighbours of a node for a rule at an hour.
    pub(super) fn neighbours(&self, cells: &[S], rule: Rule, node: Spot) -> Count
        ensures eligible { Judgeable S.Scale.size S.Scale.has self.now.house.now → result.eligible ≡ eligibles S.Scale.size S.Scale.has self.now.house.now rule node.component }
        ensures qualifying { Judgeable S.Scale.size S.Scale.has self.now.house.now → result.qualifying ≡ qualified S.Scale.size S.Scale.has self.now.house.now (course_of self.now.house.now.sizes S.Scale.has cells.now) rule node.hour node.component }
    {
        neighbours(self.house, self.verdicts, cells, rule, node)
    }
}
