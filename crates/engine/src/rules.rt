// Rules at an hour: how neighbours press on the nodes.
ghost use Rattle.std.specs.Prelude.{◌<◌, ◌≤◌, nat_eq};
ghost use Rattle.fitting.specs.Course.{course_of};
ghost use Rattle.fitting.specs.Step.{rule_grants};
ghost use Rattle.writes.specs.Written.{Narrowed, at_hour};
ghost use Rattle.engine.specs.Ready.{Judgeable, Ready};
ghost use Rattle.engine.specs.Pressed.{on_those, rules_grant};

use super::judged::Judged;
use book::Book;
use house::Rule;
use judge::Spot;
use scale::Scale;
use writes::narrow_cell;

// Narrows the cells of an hour to what every rule grants. A rule looks at earlier hours alone.
pub(super) fn apply_rules<S: Scale, B: Book<S>>(
    judged: &Judged<S>,
    book: &B,
    cells: &mut [S],
    hour: u8,
)
    ensures { Ready S.Scale.size S.Scale.has judged.now.house.now (B.Book.formulas book.now) →
        Narrowed (course_of judged.now.house.now.sizes S.Scale.has cells.old) (at_hour hour (rules_grant S.Scale.size S.Scale.has judged.now.house.now (B.Book.says book.now) (course_of judged.now.house.now.sizes S.Scale.has cells.old) judged.now.house.now.rules.now))
        (course_of judged.now.house.now.sizes S.Scale.has cells.new) }
{
    for rule in judged.house.rules {
        apply_rule(judged, book, cells, *rule, hour);
    }
}

// Narrows the target cells of an hour to what one rule grants, node by node.
fn apply_rule<S: Scale, B: Book<S>>(
    judged: &Judged<S>,
    book: &B,
    cells: &mut [S],
    rule: Rule,
    hour: u8,
)
    ensures { Judgeable S.Scale.size S.Scale.has judged.now.house.now → 1 ≤ rule.delay → rule.formula < B.Book.formulas book.now →
        Narrowed (course_of judged.now.house.now.sizes S.Scale.has cells.old) (at_hour hour (λ t c l p. rule_grants S.Scale.size S.Scale.has judged.now.house.now (B.Book.says book.now) (course_of judged.now.house.now.sizes S.Scale.has cells.old) t c l p rule))
        (course_of judged.now.house.now.sizes S.Scale.has cells.new) }
{
    if rule.delay > hour {
        return;
    }
    for component in 0..judged.house.sizes.nodes {
        press(judged, book, cells, rule, Spot { hour, component });
    }
}

// Narrows the target cell of one node to what a rule grants whose delay has passed: where its target condition holds
// and a neighbour is eligible, to what its formula says.
fn press<S: Scale, B: Book<S>>(
    judged: &Judged<S>,
    book: &B,
    cells: &mut [S],
    rule: Rule,
    node: Spot,
)
    ensures { Judgeable S.Scale.size S.Scale.has judged.now.house.now → rule.formula < B.Book.formulas book.now → rule.delay ≤ node.hour → node.component < judged.now.house.now.sizes.nodes →
        Narrowed (course_of judged.now.house.now.sizes S.Scale.has cells.old) (on_those node.hour (λ c. nat_eq c node.component) (λ t c l p. rule_grants S.Scale.size S.Scale.has judged.now.house.now (B.Book.says book.now) (course_of judged.now.house.now.sizes S.Scale.has cells.old) t c l p rule))
        (course_of judged.now.house.now.sizes S.Scale.has cells.new) }
{
    if !judged.holds(rule.onto, node.component) {
        return;
    }
    let count = judged.neighbours(cells, rule, node);
    if count.eligible == 0 {
        return;
    }
    let bound = book.answer(rule.formula as u16, count.qualifying, count.eligible);
    narrow_cell(judged.house.sizes, cells, node.cell(rule.target), bound);
}
