// How often each outcome came, and both programs agreed on it.
use std::fmt;

// What a text tells.
#[derive(Clone, Copy, PartialEq, Eq)]
pub enum Outcome {
    Listing,
    Nothing,
    Contradiction,
    // Refused with this number.
    Refused(u8),
}

impl Outcome {
    // The outcome that a text tells.
    pub fn of(text: &str) -> Outcome {
        if text.is_empty() {
            return Outcome::Nothing;
        }
        if text.starts_with("contradiction ") {
            return Outcome::Contradiction;
        }
        let number = text.strip_prefix("refused ");
        let number = number.and_then(|rest| rest.split(' ').next());
        match number.and_then(|number| number.parse::<u8>().ok()) {
            Some(number) => Outcome::Refused(number),
            None => Outcome::Listing,
        }
    }
}

impl fmt::Display for Outcome {
    fn fmt<W: fmt::Write>(&self, f: &mut fmt::Formatter<W>) -> fmt::Result {
        match self {
            Outcome::Listing => write!(f, "a listing"),
            Outcome::Nothing => write!(f, "nothing to list"),
            Outcome::Contradiction => write!(f, "contradiction"),
            Outcome::Refused(number) => write!(f, "refused {number}"),
        }
    }
}

// The files of a scale.
#[derive(Drop)]
pub struct Tally {
    listings: usize,
    empty: usize,
    contradictions: usize,
    refused: [usize; 256],
    pub differ: usize,
}

impl Tally {
    pub fn new() -> Tally {
        Tally {
            listings: 0,
            empty: 0,
            contradictions: 0,
            refused: [0; 256],
            differ: 0,
        }
    }

    // An array for the refusals, and no map: noting an outcome cannot fail.
    pub fn note(&mut self, outcome: Outcome) {
        let count = match outcome {
            Outcome::Listing => &mut self.listings,
            Outcome::Nothing => &mut self.empty,
            Outcome::Contradiction => &mut self.contradictions,
            Outcome::Refused(number) => &mut self.refused[number as usize],
        };
        *count = count.saturating_add(1);
    }

    pub fn of(&self, outcome: Outcome) -> usize {
        match outcome {
            Outcome::Listing => self.listings,
            Outcome::Nothing => self.empty,
            Outcome::Contradiction => self.contradictions,
            Outcome::Refused(number) => self.refused[number as usize],
        }
    }
}
