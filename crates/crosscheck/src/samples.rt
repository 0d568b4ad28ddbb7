// Worked examples with the text that both programs have to give.
use super::compare::both_texts;
use super::files::push_record;
use scale::Thousandths;
use std::alloc::{AllocError, Global};

// Two boards feed a lift. The first board is low in hour 0, and where half of the boards are low, the lift is low so many
// hours later. Perhaps the lift is also known to be at 300 to 1000 in hour 1.
#[derive(Clone, Copy)]
struct Sample {
    delay: u8,
    contradicted: bool,
    // What both programs have to say.
    wanted: &'static str,
}

const SAMPLES: [Sample; 5] = [
    Sample {
        delay: 1,
        contradicted: false,
        wanted: "0 0 1 0 100\n0 1 1 900 1000\n1 0 1 0 100\n1 1 1 900 1000\n1 2 1 0 200\n",
    },
    Sample {
        delay: 1,
        contradicted: true,
        wanted: "contradiction 1 2 1\n",
    },
    Sample {
        delay: 63,
        contradicted: false,
        wanted: "0 0 1 0 100\n0 1 1 900 1000\n1 0 1 0 100\n1 1 1 900 1000\n",
    },
    Sample {
        delay: 0,
        contradicted: false,
        wanted: "refused 8 0\n",
    },
    Sample {
        delay: 64,
        contradicted: false,
        wanted: "refused 8 0\n",
    },
];

// How many examples there are.
pub const COUNT: usize = SAMPLES.len();

impl Sample {
    // The record file.
    fn file(&self, heap: Global) -> Result<Vec<u8>, AllocError> {
        let mut file = Vec::new(heap);
        push_record(&mut file, b'S', &[0, 3, 1, 1, 1, 0])?;
        push_record(&mut file, b'E', &[0, 0, 0, 2])?;
        push_record(&mut file, b'E', &[0, 1, 0, 2])?;
        push_record(&mut file, b'X', &[0, 2, 0, 3, 232, 3, 232])?;
        push_record(&mut file, b'T', &[0, 0, 0, 3, 232, 3, 232])?;
        push_record(&mut file, b'T', &[1, 0, 0, 0, 0, 0, 100])?;
        push_record(&mut file, b'C', &[0, 0, 0])?;
        push_record(&mut file, b'R', &[1, self.delay, 0, 255, 255, 1, 1, 0])?;
        push_record(&mut file, b'Q', &[0, 1, 244, 0, 0, 0, 200])?;
        push_record(&mut file, b'F', &[0, 0, 1, 0, 0, 0, 100, 0, 0])?;
        push_record(&mut file, b'F', &[0, 1, 1, 3, 132, 3, 232, 0, 0])?;
        if self.contradicted {
            push_record(&mut file, b'F', &[0, 2, 1, 1, 44, 3, 232, 1, 1])?;
        }
        Ok(file)
    }

    // Whether both programs give the text that they have to.
    fn is_told(&self, heap: Global) -> anyhow::Result<bool> {
        let file = self.file(heap)?;
        let answers = both_texts::<Thousandths>(heap, &file)?;
        Ok(answers.agree() && answers.first.as_str() == self.wanted)
    }
}

// How many of the examples come out as they have to.
pub fn samples_right(heap: Global) -> anyhow::Result<usize> {
    let mut right = 0usize;
    // Counted in a loop, since a turn can fail.
    for sample in &SAMPLES {
        if sample.is_told(heap)? {
            right = right.saturating_add(1);
        }
    }
    Ok(right)
}
