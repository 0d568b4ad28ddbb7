// How an hour begins: as the hour before ended, but loose where something touches a cell.
ghost use Rattle.std.specs.Prelude.{◌≤◌};
ghost use Rattle.fitting.specs.Course.{course_of};
ghost use Rattle.writes.specs.Written.{Whole, Freed};
ghost use Rattle.engine.specs.Ready.{Judgeable};
ghost use Rattle.engine.specs.Started.{touches, ruled, Started};

use super::judged::Judged;
use super::voids::loosen;
use house::{Fact, Rule};
use judge::Spot;
use scale::Scale;
use writes::{free_cell, free_facts, repeat_hour};

// Starts an hour. At hour 0 nothing is carried over, so that every cell is loose.
pub(super) fn start_hour<S: Scale>(judged: &Judged<S>, facts: &[Fact<S>], cells: &mut [S], hour: u8)
    ensures { Judgeable S.Scale.size S.Scale.has judged.now.house.now → Whole judged.now.house.now.sizes cells.old → hour ≤ judged.now.house.now.sizes.last →
        Started S.Scale.size S.Scale.has judged.now.house.now facts.now hour (course_of judged.now.house.now.sizes S.Scale.has cells.old) (course_of judged.now.house.now.sizes S.Scale.has cells.new) }
{
    if hour == 0 {
        loosen(cells);
        return;
    }
    repeat_hour(judged.house.sizes, cells, hour);
    free_facts(judged.house.sizes, facts, cells, hour);
    free_rules(judged, cells, hour);
}

// Makes the cells of an hour loose that some rule touches.
fn free_rules<S: Scale>(judged: &Judged<S>, cells: &mut [S], hour: u8)
    ensures { Judgeable S.Scale.size S.Scale.has judged.now.house.now → Whole judged.now.house.now.sizes cells.old →
        Freed judged.now.house.now.sizes S.Scale.size hour (ruled S.Scale.size S.Scale.has judged.now.house.now judged.now.house.now.rules.now hour) (course_of judged.now.house.now.sizes S.Scale.has cells.old) (course_of judged.now.house.now.sizes S.Scale.has cells.new) }
{
    for rule in judged.house.rules {
        free_rule(judged, cells, *rule, hour);
    }
}

// Makes the target cells of an hour loose on the nodes where a rule acts.
fn free_rule<S: Scale>(judged: &Judged<S>, cells: &mut [S], rule: Rule, hour: u8)
    ensures { Judgeable S.Scale.size S.Scale.has judged.now.house.now → Whole judged.now.house.now.sizes cells.old →
        Freed judged.now.house.now.sizes S.Scale.size hour (touches S.Scale.size S.Scale.has judged.now.house.now rule hour) (course_of judged.now.house.now.sizes S.Scale.has cells.old) (course_of judged.now.house.now.sizes S.Scale.has cells.new) }
{
    if rule.delay > hour {
        return;
    }
    for component in 0..judged.house.sizes.nodes {
        if judged.holds(rule.onto, component) {
            let node = Spot { hour, component };
            free_cell(judged.house.sizes, cells, node.cell(rule.target));
        }
    }
}
