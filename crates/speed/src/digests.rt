// What a course holds, in two numbers.
use scale::{Recorded, Scale};

// The two numbers of 64-bit FNV-1a.
const BASIS: u64 = 0xcbf2_9ce4_8422_2325;

const PRIME: u64 = 0x0000_0100_0000_01b3;

// FNV-1a over the four-byte forms of the cells.
pub fn digest<S: Recorded>(course: &[S]) -> u64 {
    course
        .iter()
        .flat_map(|cell| cell.to_bytes())
        .fold(BASIS, mixed)
}

fn mixed(hash: u64, byte: u8) -> u64 {
    (hash ^ u64::from(byte)).wrapping_mul(PRIME)
}

// How many cells are not loose.
pub fn narrow_cells<S: Scale>(course: &[S]) -> usize {
    course.iter().filter(|cell| !cell.is_loose()).count()
}
