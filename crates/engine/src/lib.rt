// The loosest fitting course of a house, settled hour by hour.
//
// What facts, rules and carrying ask of an hour depends on earlier hours alone, and constraints act within one component
// at one hour. So each hour is settled when the ones before it are: it begins as the hour before, loose where it is
// touched, and is narrowed by facts, by rules and by constraints. The cells come beside the house, and `Whole` in the
// contracts: a struct with the `&mut` would need a clause in each of them that the same cells stay lent. The book comes
// beside the house too: the rules alone ask it, and a struct with it would be of two type parameters wherever one will do.
// That a house can be judged (`Judgeable`) is a premise and no field of `Judged`: `settle_hours` asks nothing of its caller, so
// that no value can hold it.
#![tactic(auto)]

ghost use Rattle.std.specs.Prelude.{◌≡◌, ◌+◌, ◌≤◌, min, length};
ghost use Rattle.house.specs.Cells.{components};
ghost use Rattle.fitting.specs.Course.{course_of};
ghost use Rattle.writes.specs.Written.{Whole};
ghost use Rattle.engine.specs.Ready.{Ready};
ghost use Rattle.engine.specs.Hours.{SettledBefore, Settles};

mod constraints;
mod judged;
mod rules;
mod start;
mod voids;

use book::Book;
use constraints::constrain_hour;
use house::{Fact, House, Sizes};
use judge::Verdicts;
use judged::{Judged, MOST_COMPONENTS};
use rules::apply_rules;
use scale::Scale;
use start::start_hour;
pub use voids::{first_void, loosen};
use writes::lay_facts;

// Writes the loosest course that fits the house and the facts into the cells, whatever they held.
pub fn settle_hours<S: Scale, B: Book<S>>(
    house: &House<S>,
    book: &B,
    facts: &[Fact<S>],
    course: &mut [S],
)
    ensures settled { Settles S.Scale.size S.Scale.has house.now (B.Book.says book.now) facts.now (B.Book.formulas book.now) course.old course.new }
    ensures length { length course.new ≡ length course.old }
{
    // Room for the verdicts, filled with those on component 0 until each is worked out. Of fixed length: settling takes no
    // memory from a heap.
    let mut room = [Verdicts::of(house, 0); MOST_COMPONENTS];
    let judged = Judged::of(house, &mut room);
    for hour in 0..=house.sizes.last {
        settle_hour(&judged, book, facts, course, hour);
    }
}

// Settles one hour, when those before it are settled.
fn settle_hour<S: Scale, B: Book<S>>(
    judged: &Judged<S>,
    book: &B,
    facts: &[Fact<S>],
    cells: &mut [S],
    hour: u8,
)
    ensures { Ready S.Scale.size S.Scale.has judged.now.house.now (B.Book.formulas book.now) → Whole judged.now.house.now.sizes cells.old → hour ≤ judged.now.house.now.sizes.last →
        SettledBefore S.Scale.size S.Scale.has judged.now.house.now (B.Book.says book.now) facts.now hour (course_of judged.now.house.now.sizes S.Scale.has cells.old) →
        SettledBefore S.Scale.size S.Scale.has judged.now.house.now (B.Book.says book.now) facts.now (hour + 1) (course_of judged.now.house.now.sizes S.Scale.has cells.new) }
{
    start_hour(judged, facts, cells, hour);
    lay_facts(judged.house.sizes, facts, cells, hour);
    apply_rules(judged, book, cells, hour);
    constrain_hour(judged.house, cells, hour);
}

// How many components there are, in the 16 bits of their numbers: the largest number if there are more. The count of
// `Sizes` is wider, and a cast wherever a component is named would be no plainer.
fn components(sizes: Sizes) -> u16
    ensures { result ≡ min (components sizes) 65535 }
{
    sizes.nodes.saturating_add(sizes.edges)
}
