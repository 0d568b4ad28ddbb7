// Random bounds in the four-byte forms of record files.
use super::dice::Dice;
use second::Kind;

// How bounds are chosen: in which scale, and, in a file that is to have no contradiction, with one point that every
// bound has.
#[derive(Clone, Copy)]
pub struct Taste {
    pub kind: Kind,
    pub common: Option<usize>,
}

// How many points a bound is to have: few or many.
#[derive(Clone, Copy, PartialEq, Eq, Debug)]
pub enum Width {
    Narrow,
    Wide,
}

impl Taste {
    // A taste in this scale; with a common point three times in four.
    pub fn roll(dice: &mut Dice, kind: Kind) -> Taste {
        let point = dice.below(kind.size());
        let common = (!dice.once_in(4)).then_some(point);
        Taste { kind, common }
    }

    // A bound of this width. By the kind, as `second` has it, and not by a type: the bytes are made before a scale reads them.
    pub fn bound(self, dice: &mut Dice, width: Width) -> [u8; 4] {
        let point = self.common.unwrap_or_else(|| dice.below(self.kind.size()));
        let (a, b) = match self.kind {
            Kind::Thousandths => range(dice, point, width),
            Kind::Modes => (mask(dice, point, width), 0),
        };
        form(a, b)
    }

    // The void.
    pub fn void(self) -> [u8; 4] {
        match self.kind {
            Kind::Thousandths => [0, 1, 0, 0],
            Kind::Modes => [0, 0, 0, 0],
        }
    }
}

// Two 16-bit numbers, high byte first.
fn form(a: usize, b: usize) -> [u8; 4] {
    let ([p, q], [r, s]) = (bytes(a), bytes(b));
    [p, q, r, s]
}

// The two bytes of a number of 16 bits, the high one first.
fn bytes(n: usize) -> [u8; 2] {
    ((n & 0xffff) as u16).to_be_bytes()
}

// The low byte.
pub fn low(n: usize) -> u8 {
    let [_, low] = bytes(n);
    low
}

// The high byte.
pub fn high(n: usize) -> u8 {
    let [high, _] = bytes(n);
    high
}

// A range around a point. Wide ones often reach an end of the scale.
fn range(dice: &mut Dice, point: usize, width: Width) -> (usize, usize) {
    let span = match width {
        Width::Narrow => dice.between(0, 250),
        Width::Wide => 1000,
    };
    let low = dice.between(point.saturating_sub(span), point);
    let high = dice.between(point, point.saturating_add(span).min(1000));
    if width == Width::Narrow {
        return (low, high);
    }
    match dice.below(3) {
        0 => (0, high),
        1 => (low, 1000),
        _ => (low, high),
    }
}

// A mask with a point.
fn mask(dice: &mut Dice, point: usize, width: Width) -> usize {
    let a = dice.below(65_536);
    let b = dice.below(65_536);
    let one = 1usize << (point % 16);
    match width {
        Width::Narrow => a & b | one,
        Width::Wide => a | b | one,
    }
}
