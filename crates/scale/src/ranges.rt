// Thousandths: the points are 0 to 1000, and the bounds are the closed ranges of them and one void.
//
// Bounds lie in tables that callers lend, so a value carries no invariant: whatever `low` and `high` hold, it means the
// points from 0 to 1000 that lie from low to high. Every function goes by these points and gives named bounds only:
// a range with low ≤ high ≤ 1000, or the void, 1 to 0.
ghost use Rattle.std.specs.Prelude.{◌≡◌, ℕ, min, true, Some, IfOk};
ghost use Rattle.points.specs.Points.{Points, Loose, Meet, within, void};
ghost use Rattle.scale.specs.Forms.{Reads};
ghost use Rattle.scale.specs.Ranges.{points, ranging, named, range_form, Canonical, Ranged, Ends, RangesApart};
ghost use Rattle.scale.specs.Texts.{not_a_range_text};
ghost use Rattle.std.proofs.Common.{rules};
ghost use Rattle.scale.specs.RangeFacts.{range_one_form};

use super::{NotABound, Recorded, Scale};
use std::error::Error;
use std::fmt;

// The highest point.
const TOP: u16 = 1000;

// A range of thousandths, or the void. Equality is not derived: two values may mean the same points.
#[derive(Clone, Copy, Debug)]
pub struct Thousandths {
    low: u16,
    high: u16,
}

// Two ends that make no range: low is above high, or high is above 1000.
#[derive(Clone, Copy, PartialEq, Eq, Debug)]
pub struct NotARange {
    pub low: u16,
    pub high: u16,
}

impl fmt::Display for NotARange {
    ghost output = { λ e. Some (not_a_range_text e) };

    fn fmt<W: fmt::Write>(&self, f: &mut fmt::Formatter<W>) -> fmt::Result {
        let NotARange { low, high } = *self;
        write!(f, "{low} to {high} is no range of thousandths")
    }
}

impl Error for NotARange {}

impl Thousandths {
    // The range from low to high, both included.
    pub fn range(low: u16, high: u16) -> Result<Thousandths, NotARange>
        ensures { Ranged low high result }
    {
        if low <= high && high <= TOP {
            Ok(Thousandths { low, high })
        } else {
            Err(NotARange { low, high })
        }
    }

    // The bound of no point.
    pub fn none() -> Thousandths
        ensures { result ≡ ranging 1 0 }
    {
        Thousandths { low: 1, high: 0 }
    }

    // The lowest and the highest point, if there are any.
    pub fn ends(self) -> Option<(u16, u16)>
        ensures { Ends self result }
    {
        if self.void() {
            return None;
        }
        let high = self.high.min(TOP);
        Some((self.low, high))
    }
}

// The named bound that has the points from low to high.
fn cut(low: u16, high: u16) -> Thousandths
    ensures { result ≡ named low high }
{
    let high = high.min(TOP);
    if low <= high {
        Thousandths { low, high }
    } else {
        Thousandths::none()
    }
}

impl Scale for Thousandths {
    ghost size = { 1001 };

    ghost has = { points };

    ghost inside = { Prim.search rules };

    fn loose() -> Thousandths
        ensures points { Loose 1001 (points result) }
        ensures canonical { Canonical result }
    {
        Thousandths { low: 0, high: TOP }
    }

    fn meet(self, other: Thousandths) -> Thousandths
        ensures points { Meet (points self) (points other) (points result) }
        ensures canonical { Canonical result }
    {
        cut(self.low.max(other.low), self.high.min(other.high))
    }

    fn within(self, other: Thousandths) -> bool {
        if self.void() {
            return true;
        }
        other.low <= self.low && self.high.min(TOP) <= other.high
    }

    fn void(self) -> bool {
        self.low > self.high || self.low > TOP
    }
}

impl Recorded for Thousandths {
    ghost form = { range_form };

    ghost one_form = { range_one_form };

    fn to_bytes(self) -> [u8; 4] {
        let bound = cut(self.low, self.high);
        let [l0, l1] = bound.low.to_be_bytes();
        let [h0, h1] = bound.high.to_be_bytes();
        [l0, l1, h0, h1]
    }

    fn from_bytes(bytes: [u8; 4]) -> Result<Thousandths, NotABound>
        ensures reads { Reads range_form bytes result }
        ensures canonical { IfOk result Canonical }
    {
        let [l0, l1, h0, h1] = bytes;
        let low = u16::from_be_bytes([l0, l1]);
        let high = u16::from_be_bytes([h0, h1]);
        if low <= high && high <= TOP || low == 1 && high == 0 {
            Ok(Thousandths { low, high })
        } else {
            Err(NotABound { bytes })
        }
    }
}

// Different named bounds have different points: a theorem, with nothing to run.
pub fn ranges_apart()
    ensures { RangesApart }
{}

#[cfg(test)]
mod tests {
    use super::*;
    use std::process::Abort;

    // What a raw value means: its form, and whether it is void.
    fn shows(rt: &impl Abort, low: u16, high: u16, form: [u8; 4], void: bool) {
        let raw = Thousandths { low, high };
        assert_eq!(rt; raw.to_bytes(), form);
        assert_eq!(rt; raw.meet(Thousandths::loose()).to_bytes(), form);
        assert_eq!(rt; raw.void(), void);
    }

    #[test]
    fn raw_values_go_by_their_points(rt: HostRuntime) {
        shows(&rt, 0, 5000, [0, 0, 3, 232], false);
        shows(&rt, 990, 2000, [3, 222, 3, 232], false);
        shows(&rt, 7, 3, [0, 1, 0, 0], true);
        shows(&rt, 1001, 2000, [0, 1, 0, 0], true);
        shows(&rt, 0, 0, [0, 0, 0, 0], false);
    }

    #[test]
    fn only_forms_are_read(rt: HostRuntime) {
        assert!(rt; Thousandths::from_bytes([0, 0, 3, 232]).is_ok());
        assert!(rt; Thousandths::from_bytes([0, 1, 0, 0]).is_ok());
        assert!(rt; Thousandths::from_bytes([0, 0, 3, 233]).is_err());
        assert!(rt; Thousandths::from_bytes([0, 7, 0, 3]).is_err());
        assert!(rt; Thousandths::from_bytes([0, 2, 0, 0]).is_err());
    }

    #[test]
    fn loose_goes_by_points(rt: HostRuntime) {
        assert!(rt; Thousandths::loose().is_loose());
        assert!(rt; (Thousandths { low: 0, high: 5000 }).is_loose());
        assert!(rt; !(Thousandths { low: 1, high: 5000 }).is_loose());
        assert!(rt; !(Thousandths { low: 0, high: 999 }).is_loose());
        assert!(rt; !Thousandths::none().is_loose());
    }

    #[test]
    fn within_goes_by_points(rt: HostRuntime) {
        let empty = Thousandths { low: 7, high: 3 };
        let top = Thousandths {
            low: 990,
            high: 2000,
        };
        assert!(rt; empty.within(Thousandths::none()));
        assert!(rt; !top.within(empty));
        assert!(rt;
            top.within(Thousandths {
                low: 990,
                high: 1000,
            })
        );
        assert!(rt; Thousandths::range(600, 400).is_err());
        assert!(rt; Thousandths::range(0, 1001).is_err());
    }
}
