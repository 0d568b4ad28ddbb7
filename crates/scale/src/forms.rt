// Recorded scales: scales whose bounds have a four-byte form.
ghost use Rattle.std.specs.Prelude.{◌≡◌, ℕ, List, Some};
ghost use Rattle.points.specs.Points.{Iff, Same};
ghost use Rattle.scale.specs.Forms.{Reads, FormLaws};
ghost use Rattle.scale.specs.Texts.{not_a_bound_text};

use super::Scale;
use std::error::Error;
use std::fmt;

// Four bytes that are the form of no bound.
#[derive(Clone, Copy, PartialEq, Eq, Debug)]
pub struct NotABound {
    pub bytes: [u8; 4],
}

impl fmt::Display for NotABound {
    ghost output = { λ e. Some (not_a_bound_text e) };

    fn fmt<W: fmt::Write>(&self, f: &mut fmt::Formatter<W>) -> fmt::Result {
        let [b0, b1, b2, b3] = self.bytes;
        write!(f, "no bound has the form {b0} {b1} {b2} {b3}")
    }
}

impl Error for NotABound {}

pub trait Recorded: Scale {
    // The form of a bound.
    ghost form: { Self → List ℕ };

    // The form of this bound.
    fn to_bytes(self) -> [u8; 4]
        ensures { result ≡ form self };

    // The bound with this form; other bytes are refused.
    fn from_bytes(bytes: [u8; 4]) -> Result<Self, NotABound>
        ensures { Reads form bytes result };

    // Bounds have one form exactly where they have the same points.
    ghost one_form: { (a b : Self) → Iff (form a ≡ form b) (Same (Self.Scale.has a) (Self.Scale.has b)) };
}

// The laws of forms, for every recorded scale: a theorem, with nothing to run.
pub fn form_laws_stand<S: Recorded>()
    ensures { FormLaws S.Scale.has S.Recorded.form }
{}
