// Sets of points, and the two scales that bounds are read in.
use std::{array, fmt};

// How many words a set has, of 64 bits each.
const WORDS: usize = 16;

// Sets are of the numbers below this one.
const END: usize = 1024;

// The scales: ranges of thousandths, or sets of modes.
#[derive(Clone, Copy, PartialEq, Eq, Debug)]
pub enum Kind {
    Thousandths,
    Modes,
}

impl Kind {
    // How many points the scale has.
    pub fn size(self) -> usize {
        match self {
            Kind::Thousandths => 1001,
            Kind::Modes => 16,
        }
    }

    // All points.
    pub fn all(self) -> Set {
        Set::run(0, self.size())
    }

    // The set that the four bytes of a record stand for, if they stand for one: two numbers, high byte first.
    pub fn bound(self, form: [u8; 4]) -> Option<Set> {
        let [p, q, r, s] = form;
        let (a, b) = (u16::from_be_bytes([p, q]), u16::from_be_bytes([r, s]));
        match (self, a, b) {
            (Kind::Thousandths, 1, 0) => Some(Set::empty()),
            (Kind::Thousandths, low, high) if low <= high && high <= 1000 => {
                Some(Set::run(low as usize, high as usize + 1))
            }
            (Kind::Modes, mask, 0) => Some(Set::masked(mask)),
            _ => None,
        }
    }

    // The two numbers that stand for a set in a record.
    pub fn halves(self, set: &Set) -> Halves {
        match (self, set.first(), set.last()) {
            (Kind::Thousandths, Some(low), Some(high)) => Halves(low, high),
            (Kind::Thousandths, _, _) => Halves(1, 0),
            (Kind::Modes, _, _) => Halves(set.mask() as usize, 0),
        }
    }
}

// The two numbers that stand for a set in a record, as they are printed.
#[derive(Clone, Copy, PartialEq, Eq, Debug)]
pub struct Halves(pub usize, pub usize);

impl fmt::Display for Halves {
    fn fmt<W: fmt::Write>(&self, f: &mut fmt::Formatter<W>) -> fmt::Result {
        let Halves(a, b) = *self;
        write!(f, "{a} {b}")
    }
}

// A set of numbers: a bit for each.
#[derive(Clone, Copy, PartialEq, Eq, Debug)]
pub struct Set {
    words: [u64; WORDS],
}

impl Set {
    // The set without a number.
    pub fn empty() -> Set {
        Set { words: [0; WORDS] }
    }

    // The numbers from `from` on that are below `end`.
    pub fn run(from: usize, end: usize) -> Set {
        let mut set = Set::empty();
        for p in from..end {
            set.put(p);
        }
        set
    }

    // The numbers whose bits are set in a mask.
    pub fn masked(mask: u16) -> Set {
        let mut set = Set::empty();
        set.words[0] = u64::from(mask);
        set
    }

    // The mask of the numbers below 16.
    pub fn mask(&self) -> u16 {
        (self.words[0] & 0xffff) as u16
    }

    // Adds a number. One that no set can have is let go.
    pub fn put(&mut self, p: usize) {
        if let Some(word) = self.words.get_mut(p / 64) {
            *word |= 1 << (p % 64);
        }
    }

    // Whether a number is in the set.
    pub fn has(&self, p: usize) -> bool {
        self.words
            .get(p / 64)
            .is_some_and(|word| (word >> (p % 64)) & 1 == 1)
    }

    // The numbers that are in both sets.
    pub fn meet(&self, other: &Set) -> Set {
        Set {
            words: array::from_fn(|k| self.words[k] & other.words[k]),
        }
    }

    // Whether every number of the set is in the other.
    pub fn within(&self, other: &Set) -> bool {
        let mut words = self.words.iter().zip(other.words.iter());
        words.all(|(word, others)| word & !others == 0)
    }

    // Whether no number is in the set.
    pub fn is_empty(&self) -> bool {
        *self == Set::empty()
    }

    // How many numbers are in the set.
    pub fn count(&self) -> usize {
        (0..END).filter(|p| self.has(*p)).count()
    }

    // The lowest number.
    pub fn first(&self) -> Option<usize> {
        (0..END).find(|p| self.has(*p))
    }

    // The highest number.
    pub fn last(&self) -> Option<usize> {
        (0..END).rfind(|p| self.has(*p))
    }
}
