// Quorums: a book that is silent while too few neighbours are eligible.
ghost use Rattle.std.specs.Prelude.{◌≡◌, Some, nat_lt};
ghost use Rattle.book.specs.Quorums.{quorate, Founded, too_large_text};
ghost use Rattle.book.specs.Answering.{quorum_narrows};

use super::{Book, MOST_ELIGIBLE};
use scale::Scale;
use std::error::Error;
use std::fmt;

// A book that says what the book below it says where at least `least` neighbours are eligible, and is loose elsewhere.
#[derive(Debug, Drop)]
pub struct Quorum<B> {
    least: u8,
    book: B,
}

// A quorum above 200, with the book that was handed in.
#[derive(Debug, Drop)]
pub struct QuorumTooLarge<B> {
    pub least: u8,
    pub book: B,
}

impl<B> fmt::Display for QuorumTooLarge<B> {
    ghost output = { λ e. Some (too_large_text e.least) };

    fn fmt<W: fmt::Write>(&self, f: &mut fmt::Formatter<W>) -> fmt::Result {
        let least = self.least;
        write!(f, "the quorum {least} is above {MOST_ELIGIBLE}")
    }
}

impl<B: fmt::Debug + Drop> Error for QuorumTooLarge<B> {}

impl<B> Quorum<B> {
    // The book under a quorum of `least`, which is 0 to 200.
    pub fn new(least: u8, book: B) -> Result<Quorum<B>, QuorumTooLarge<B>>
        ensures { Founded least book result }
    {
        if least <= MOST_ELIGIBLE {
            Ok(Quorum { least, book })
        } else {
            Err(QuorumTooLarge { least, book })
        }
    }

    // Whether y eligible neighbours are too few.
    fn misses(&self, y: u16) -> bool
        ensures { result ≡ nat_lt y self.now.least }
    {
        y < u16::from(self.least)
    }
}

impl<S: Scale, B: Book<S>> Book<S> for Quorum<B> {
    ghost formulas = { λ q. B.Book.formulas q.book };

    ghost says = { λ q. quorate S.Scale.size q.least (B.Book.says q.book) };

    ghost narrows = { λ b f x z y p low high most. quorum_narrows S.Scale.size b.least (B.Book.says b.book) f x z y p (B.Book.narrows b.book f x z y p low high most) };

    fn count(&self) -> u16 {
        self.book.count()
    }

    fn answer(&self, f: u16, x: u16, y: u16) -> S {
        if self.misses(y) {
            S::loose()
        } else {
            self.book.answer(f, x, y)
        }
    }
}
