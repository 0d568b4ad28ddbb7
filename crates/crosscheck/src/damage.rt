// Damage to a record file, so that some check refuses it.
use super::dice::Dice;
use std::alloc::{AllocError, Global};

// The letters of records.
const LETTERS: &[u8; 9] = b"EXTCKRQFS";

// Sets one byte of a record.
fn set(bytes: &mut Vec<u8>, record: usize, k: usize, value: u8) {
    let at = record.saturating_mul(16).saturating_add(k);
    if let Some(byte) = bytes.get_mut(at) {
        *byte = value;
    }
}

// A byte that is often at or just past a limit.
fn odd_byte(dice: &mut Dice) -> u8 {
    match dice.below(6) {
        0 => 0,
        1 => 255,
        2 => 64,
        3 => 1,
        4 => 201,
        _ => dice.byte(),
    }
}

// Appends a record that stands in the file.
fn repeat_record(heap: Global, bytes: &mut Vec<u8>, record: usize) -> Result<(), AllocError> {
    let start = record.saturating_mul(16);
    let copy = bytes.iter().copied().skip(start).take(16);
    let copy: Vec<u8> = copy.collect(heap)?;
    bytes.extend_from_slice(&copy)
}

// The number of the first record with a letter, or 0.
fn find(bytes: &[u8], letter: u8) -> usize {
    bytes
        .chunks(16)
        .position(|record| record.first() == Some(&letter))
        .unwrap_or(0)
}

// Appends zeros up to a length.
fn stretch(bytes: &mut Vec<u8>, length: usize) -> Result<(), AllocError> {
    bytes.resize(length.max(bytes.len()), 0)
}

// Damages a file in one of several ways. Some of them leave it lawful.
pub fn damage(heap: Global, dice: &mut Dice, bytes: &mut Vec<u8>) -> Result<(), AllocError> {
    let length = bytes.len();
    let any = dice.below(length / 16);
    let sizes = find(bytes, b'S');
    let bound = find(bytes, b'X');
    let letter = LETTERS.get(dice.below(LETTERS.len()));
    let letter = letter.copied().unwrap_or(b'S');
    let record = find(bytes, letter);
    match dice.below(12) {
        0 => set(bytes, any, dice.below(16), dice.byte()),
        1 => bytes.truncate(dice.below(length)),
        2 => repeat_record(heap, bytes, any)?,
        3 => set(bytes, any, 0, letter),
        4 => set(bytes, sizes, dice.between(1, 6), odd_byte(dice)),
        5 => stretch(bytes, dice.between(32_752, 32_800))?,
        6 => repeat_record(heap, bytes, bound)?,
        7 => set(bytes, any, dice.between(10, 15), odd_byte(dice)),
        _ => set(bytes, record, dice.between(1, 9), odd_byte(dice)),
    }
    Ok(())
}
