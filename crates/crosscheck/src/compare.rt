// Both programs on the same record file.
use super::bounds::Taste;
use super::damage::damage;
use super::dice::Dice;
use super::files::{Draft, Shape, Sketch};
use super::limits::{LIMITS, shape_at};
use super::scales::Compared;
use report::report;
use second::Kind;
use std::alloc::{AllocError, Global};

// What the two programs say to the same.
#[derive(Drop)]
pub struct Answers {
    pub first: String,
    pub other: String,
}

impl Answers {
    pub fn agree(&self) -> bool {
        self.first == self.other
    }
}

// What the two programs say to a file.
pub fn both_texts<S: Compared>(heap: Global, bytes: &[u8]) -> anyhow::Result<Answers> {
    let kind = S::KIND;
    Ok(Answers {
        first: report::<S>(heap, bytes)?,
        other: second::answer(heap, kind, bytes)?,
    })
}

// A random file by its number in the run: of eight, five are lawful, and three are damaged; one of forty is at a limit
// instead.
pub fn random_file(
    heap: Global,
    dice: &mut Dice,
    kind: Kind,
    i: usize,
) -> Result<Vec<u8>, AllocError> {
    let shape = if i % 40 == 7 {
        shape_at(dice, i / 40 % LIMITS)
    } else {
        Shape::small(dice)
    };
    let taste = Taste::roll(dice, kind);
    let mut file = Draft::write(heap, dice, Sketch { shape, taste })?;
    if i % 8 < 3 {
        damage(heap, dice, &mut file.bytes)?;
    }
    Ok(file.bytes)
}
