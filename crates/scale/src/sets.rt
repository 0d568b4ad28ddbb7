// Modes: the points are 0 to 15, and the bounds are all sets of them.
//
// A set is held as a mask: mode i is worth 2^i.
ghost use Rattle.std.specs.Prelude.{◌≡◌, ℕ, true, IfOk};
ghost use Rattle.points.specs.Points.{Points, Loose, Meet, within, void};
ghost use Rattle.scale.specs.Forms.{Reads};
ghost use Rattle.scale.specs.Sets.{points, masked, set_form, Canonical, SetsApart};
ghost use Rattle.scale.specs.SetFacts.{mode_below, set_one_form};

use super::{NotABound, Recorded, Scale};

// A set of modes. Equality is not derived: generic code compares bounds by their points.
#[derive(Clone, Copy, Debug)]
pub struct Modes {
    mask: u16,
}

// To and from a mask by name, and by no `From`: a number alone does not say that it is a mask.
impl Modes {
    // The set of the modes i whose bit, worth 2^i, is set.
    pub fn of(mask: u16) -> Modes
        ensures { result ≡ masked mask }
    {
        Modes { mask }
    }

    // The mask of this set.
    pub fn mask(self) -> u16
        ensures { result ≡ self.mask }
    {
        let Modes { mask } = self;
        mask
    }
}

impl Scale for Modes {
    ghost size = { 16 };

    ghost has = { points };

    ghost inside = { λ s. mode_below s.mask };

    fn loose() -> Modes
        ensures points { Loose 16 (points result) }
        ensures canonical { Canonical result }
    {
        Modes { mask: u16::MAX }
    }

    fn meet(self, other: Modes) -> Modes
        ensures points { Meet (points self) (points other) (points result) }
        ensures canonical { Canonical result }
    {
        Modes {
            mask: self.mask & other.mask,
        }
    }

    fn within(self, other: Modes) -> bool {
        self.mask & other.mask == self.mask
    }

    fn void(self) -> bool {
        self.mask == 0
    }
}

impl Recorded for Modes {
    ghost form = { set_form };

    ghost one_form = { set_one_form };

    fn to_bytes(self) -> [u8; 4] {
        let [m0, m1] = self.mask.to_be_bytes();
        [m0, m1, 0, 0]
    }

    fn from_bytes(bytes: [u8; 4]) -> Result<Modes, NotABound>
        ensures reads { Reads set_form bytes result }
        ensures canonical { IfOk result Canonical }
    {
        let [m0, m1, n0, n1] = bytes;
        if n0 == 0 && n1 == 0 {
            Ok(Modes {
                mask: u16::from_be_bytes([m0, m1]),
            })
        } else {
            Err(NotABound { bytes })
        }
    }
}

// Different sets have different modes: a theorem, with nothing to run.
pub fn sets_apart()
    ensures { SetsApart }
{}

#[cfg(test)]
mod tests {
    use super::*;

    #[test]
    fn sets_of_modes(rt: HostRuntime) {
        let all = Modes::loose();
        let three = Modes::of(8);
        assert_eq!(rt; all.to_bytes(), [255, 255, 0, 0]);
        assert_eq!(rt; three.to_bytes(), [0, 8, 0, 0]);
        assert!(rt; three.within(all) && !all.within(three));
        assert_eq!(rt; Modes::of(6).meet(Modes::of(3)).mask(), 2);
        assert_eq!(rt; Modes::of(0).to_bytes(), [0, 0, 0, 0]);
        assert!(rt; Modes::of(0).void() && !three.void());
        assert!(rt; all.is_loose() && !three.is_loose());
    }

    #[test]
    fn only_forms_are_read(rt: HostRuntime) {
        assert!(rt; Modes::from_bytes([255, 255, 0, 0]).is_ok());
        assert!(rt; Modes::from_bytes([0, 0, 0, 0]).is_ok());
        assert!(rt; Modes::from_bytes([0, 0, 1, 0]).is_err());
        assert!(rt; Modes::from_bytes([0, 0, 0, 1]).is_err());
    }
}
