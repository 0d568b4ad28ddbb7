// Record files: a building and what is known of it, in records of sixteen bytes.
#![tactic(auto)]

ghost use Rattle.std.specs.Prelude.{◌≡◌, ◌≤◌, ◌↔◌, EachIndex, IsTrue, MatchOption};
ghost use Rattle.record.specs.Frame.{HasS, FirstS, Framed, number_of};

mod faults;
mod reading;
mod takes;

pub use faults::{BytesFault, Fault, HouseFault};
pub use reading::{Content, read};

// The longest file, in bytes.
const LONGEST: usize = 32_768;

// What is wrong with the frame of a file, before any record is judged.
#[derive(Clone, Copy, PartialEq, Eq, Debug)]
pub enum FrameFault {
    // The file is too long, or not made of whole records.
    Length,
    // There is no S record, or more than one.
    SizesRecord,
}

impl FrameFault {
    // The number by which this fault is told.
    pub fn number(self) -> u8
        ensures { result ≡ number_of self }
    {
        match self {
            FrameFault::Length => 21,
            FrameFault::SizesRecord => 25,
        }
    }
}

// The number of the first record with the letter S.
fn first_sizes(rows: &[[u8; 16]]) -> Option<usize>
    ensures { MatchOption result (EachIndex rows.now (λ k. ¬ HasS rows.now k)) (FirstS rows.now) }
{
    rows.iter().position(|row| row[0] == b'S')
}

// Whether no record from `from` on has the letter S.
fn no_sizes(rows: &[[u8; 16]], from: usize) -> bool
    ensures { IsTrue result ↔ EachIndex rows.now (λ k. from ≤ k → ¬ HasS rows.now k) }
{
    rows.iter().skip(from).all(|row| row[0] != b'S')
}

// The number of the one S record, counted from 0.
pub fn sizes_record(bytes: &[u8]) -> Result<usize, FrameFault>
    ensures { Framed bytes.now result }
{
    if bytes.len() > LONGEST || bytes.len() % 16 != 0 {
        return Err(FrameFault::Length);
    }
    let (rows, _) = bytes.as_chunks::<16>();
    let Some(at) = first_sizes(rows) else {
        return Err(FrameFault::SizesRecord);
    };
    if no_sizes(rows, at + 1) {
        Ok(at)
    } else {
        Err(FrameFault::SizesRecord)
    }
}
