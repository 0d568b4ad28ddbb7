// The scales on which the two programs are compared.
use scale::{Modes, Recorded, Thousandths};
use second::Kind;

// A scale that both programs have: the planner as a type, the second program as a kind.
pub trait Compared: Recorded {
    const KIND: Kind;
}

impl Compared for Thousandths {
    const KIND: Kind = Kind::Thousandths;
}

impl Compared for Modes {
    const KIND: Kind = Kind::Modes;
}
