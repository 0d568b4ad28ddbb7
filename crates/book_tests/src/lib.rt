// Examples of books: stairs, counting books and quorums. Bounds are compared by their forms.
#![tactic(auto)]

use book::{Book, CountStep, CountingBook, Quorum, Stair, Stairs};
use scale::{Recorded, Thousandths};

#[cfg(test)]
mod tests {
    use super::*;
    use std::process::Abort;
    use std::test::Fail;

    // The thousandths from 0 to high.
    fn up_to(high: u16) -> Thousandths {
        Thousandths::range(0, high).unwrap_or(Thousandths::none())
    }

    // A stair of formula 0 with the bound 0 to 400.
    fn stair(share: u16) -> Stair<Thousandths> {
        Stair {
            formula: 0,
            share,
            bound: up_to(400),
        }
    }

    // Whether the book's formula f says 0 to high at x of y.
    fn says<B: Book<Thousandths>>(rt: &impl Abort, book: &B, f: u16, x: u16, y: u16, high: u16) {
        assert_eq!(rt; book.answer(f, x, y).to_bytes(), up_to(high).to_bytes());
    }

    #[test]
    fn half_of_the_neighbours(rt: HostRuntime) {
        let stairs = [stair(500)];
        let book = Stairs::over(&stairs);
        says(&rt, &book, 0, 1, 2, 400);
        says(&rt, &book, 0, 1, 3, 1000);
        says(&rt, &book, 0, 0, 0, 1000);
    }

    #[test]
    fn shares_at_the_ends(rt: HostRuntime) {
        says(&rt, &Stairs::over(&[stair(0)]), 0, 0, 1, 400);
        says(&rt, &Stairs::over(&[stair(1001)]), 0, 200, 200, 1000);
    }

    #[test]
    fn loose_outside(rt: HostRuntime) {
        let stairs = [stair(0)];
        let book = Stairs::over(&stairs);
        says(&rt, &book, 0, 200, 200, 400);
        says(&rt, &book, 0, 3, 2, 1000);
        says(&rt, &book, 0, 1, 201, 1000);
        says(&rt, &book, 1, 1, 1, 1000);
    }

    #[test]
    fn formulas(rt: HostRuntime) {
        let steps = [
            CountStep {
                formula: 255,
                least: 0,
                bound: up_to(700),
            },
            CountStep {
                formula: 255,
                least: 2,
                bound: up_to(300),
            },
        ];
        let book = CountingBook::over(&steps);
        assert_eq!(rt; book.count(), 256);
        says(&rt, &book, 255, 0, 0, 700);
        says(&rt, &book, 255, 2, 9, 300);
        says(&rt, &book, 254, 2, 9, 1000);
    }

    #[test]
    fn no_step(rt: HostRuntime) {
        let steps: [CountStep<Thousandths>; 0] = [];
        let book = CountingBook::over(&steps);
        assert_eq!(rt; book.count(), 0);
        says(&rt, &book, 0, 0, 0, 1000);
    }

    #[test]
    fn quorums(rt: HostRuntime) -> Result<(), Fail> {
        let stairs = [stair(0)];
        let three = Quorum::new(3, Stairs::over(&stairs))?;
        says(&rt, &three, 0, 1, 2, 1000);
        says(&rt, &three, 0, 1, 3, 400);
        assert_eq!(rt; three.count(), 1);
        let most = Quorum::new(200, three)?;
        says(&rt, &most, 0, 1, 199, 1000);
        says(&rt, &most, 0, 1, 200, 400);
        Ok(())
    }

    #[test]
    fn refused_quorums(rt: HostRuntime) -> Result<(), Fail> {
        let stairs = [stair(0)];
        let none = Quorum::new(0, Stairs::over(&stairs))?;
        says(&rt, &none, 0, 0, 1, 400);
        let Err(refused) = Quorum::new(201, none) else {
            return Err(Fail::new("201 is no quorum"));
        };
        assert_eq!(rt; refused.least, 201);
        says(&rt, &refused.book, 0, 0, 1, 400);
        Ok(())
    }
}
