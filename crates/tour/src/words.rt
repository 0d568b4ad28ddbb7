// Bounds, facts, calls and answers in words.
ghost use Rattle.std.specs.Prelude.{Some};
ghost use Rattle.tour.specs.Words.{in_words};

use super::building::{LIFT, NORTH, SOUTH};
use house::Fact;
use life::{Answer, Call};
use scale::Thousandths;
use std::fmt;

// The ends of a bound, where it has any.
#[derive(Drop)]
struct Ends(Option<(u16, u16)>);

impl fmt::Display for Ends {
    ghost output = { λ ends. Some (in_words ends.0) };

    fn fmt<W: fmt::Write>(&self, f: &mut fmt::Formatter<W>) -> fmt::Result {
        match self.0 {
            Some((low, high)) => write!(f, "{low} to {high}"),
            None => write!(f, "void"),
        }
    }
}

// A part by its name.
#[derive(Drop)]
struct Part(u16);

impl fmt::Display for Part {
    fn fmt<W: fmt::Write>(&self, f: &mut fmt::Formatter<W>) -> fmt::Result {
        let name = match self.0 {
            NORTH => "the north board",
            SOUTH => "the south board",
            LIFT => "the lift",
            3 => "the line from the north board",
            4 => "the line from the south board",
            _ => "no part",
        };
        write!(f, "{name}")
    }
}

// A fact as a sentence.
#[derive(Drop)]
struct Stated<'a>(&'a Fact<Thousandths>);

impl fmt::Display for Stated<'_> {
    fn fmt<W: fmt::Write>(&self, f: &mut fmt::Formatter<W>) -> fmt::Result {
        let Fact {
            component,
            bound,
            from,
            to,
            ..
        } = *self.0;
        let part = Part(component);
        let ends = Ends(bound.ends());
        write!(f, "{part} is at {ends} in hours {from} to {to}")
    }
}

// A call, up to its answer.
#[derive(Drop)]
pub struct Asked<'a>(pub &'a Call<Thousandths>);

impl fmt::Display for Asked<'_> {
    fn fmt<W: fmt::Write>(&self, f: &mut fmt::Formatter<W>) -> fmt::Result {
        match self.0 {
            Call::File(fact) => {
                let fact = Stated(fact);
                write!(f, "file that {fact}")
            }
            Call::Strike(at) => write!(f, "strike fact {at}"),
            Call::Settle => write!(f, "settle"),
            Call::Reopen => write!(f, "reopen"),
            Call::Look(cell) => {
                let part = Part(cell.component);
                let hour = cell.hour;
                write!(f, "look at {part} in hour {hour}")
            }
            Call::Entails(fact) => {
                let fact = Stated(fact);
                write!(f, "does it follow that {fact}")
            }
        }
    }
}

// An answer, behind its call.
#[derive(Drop)]
pub struct Answered<'a>(pub &'a Answer<Thousandths>);

impl fmt::Display for Answered<'_> {
    fn fmt<W: fmt::Write>(&self, f: &mut fmt::Formatter<W>) -> fmt::Result {
        match self.0 {
            Answer::Filed => write!(f, ": filed"),
            Answer::Struck => write!(f, ": struck"),
            Answer::Settled => write!(f, ": settled"),
            Answer::Reopened => write!(f, ": a draft again"),
            Answer::Seen(bound) => {
                let ends = Ends(bound.ends());
                write!(f, ": {ends}")
            }
            Answer::Entailed(true) => write!(f, "? Yes"),
            Answer::Entailed(false) => write!(f, "? No"),
            Answer::Contradiction(at) => {
                let part = Part(at.cell.component);
                let hour = at.cell.hour;
                write!(
                    f,
                    ": the sheets contradict each other, first at {part} in hour {hour}"
                )
            }
            Answer::Refused(refusal) => {
                let number = refusal.number();
                let place = refusal.place();
                write!(f, ": refused {number} at {place}")
            }
            Answer::Misplaced => write!(f, ": not now"),
        }
    }
}
