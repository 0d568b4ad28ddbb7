// What a call on a plan can refuse.
ghost use Rattle.std.specs.Prelude.{◌≡◌, Some};
ghost use Rattle.plan.specs.Refusals.{number_of, place_of};
ghost use Rattle.plan.specs.Texts.{refusal_text};
ghost use Rattle.plan.specs.declared.refusals.Refusal.TheVariants.{House as HouseCase};

use examining::Defect;
use std::error::Error;
use std::fmt;

// Each case is a check that a call makes before it does anything.
#[derive(Clone, Copy, PartialEq, Eq, Debug)]
pub enum Refusal {
    // The sizes, or the tables, are no house.
    House(Defect),
    // The table of facts is shorter than the plan's count.
    Short,
    // The table of facts is full.
    Full,
    // A fact is not inside the house: the one handed in, or the filed one at this place.
    Outside { at: usize },
    // No fact is filed at the place named.
    NoFact,
    // The course has not as many cells as the house.
    Length,
    // The house has no such cell.
    NoCell,
}

impl Refusal {
    // The number of the refusal.
    pub fn number(self) -> u8
        ensures { result ≡ number_of self }
    {
        match self {
            Refusal::House(defect) => defect.number(),
            Refusal::Short => 9,
            Refusal::Full => 10,
            Refusal::Outside { .. } => 11,
            Refusal::NoFact => 12,
            Refusal::Length => 13,
            Refusal::NoCell => 15,
        }
    }

    // Its place: the one that the house's defect has, or of the fact that is outside; 0 where none is meant.
    pub fn place(self) -> usize
        ensures { result ≡ place_of self }
    {
        match self {
            Refusal::House(defect) => defect.place(),
            Refusal::Outside { at } => at,
            _ => 0,
        }
    }
}

// What is wrong with a house is refused as it is.
impl From<Defect> for Refusal {
    ghost from_gives = { λ x r. r ≡ HouseCase x };

    fn from(value: Defect) -> Refusal {
        Refusal::House(value)
    }
}

// The text of a refusal: its number and its place.
impl fmt::Display for Refusal {
    ghost output = { λ r. Some (refusal_text (number_of r) (place_of r)) };

    fn fmt<W: fmt::Write>(&self, f: &mut fmt::Formatter<W>) -> fmt::Result {
        let number = self.number();
        let place = self.place();
        write!(f, "refused {number} {place}")
    }
}

impl Error for Refusal {}
