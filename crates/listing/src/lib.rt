// The listing of a course: a line for each cell that is not loose, in the order of cells.
#![tactic(auto)]

ghost use Rattle.std.specs.Prelude.{◌≡◌, ◌++◌, IfOk, string_bytes, OnOk};
ghost use Rattle.listing.specs.Lines.{cell_line, line_of, listing_of};

use house::Sizes;
use scale::{Recorded, Scale};
use std::alloc::{AllocError, Global};
use std::fmt;

// Writes the line of the cell at a place, whose bound has these four bytes. Any place has a line, also one past the cells of
// the house, so that the cell is not asked of the engine, which knows those alone.
fn put_line(out: &mut String, sizes: Sizes, at: usize, form: [u8; 4]) -> fmt::Result
    ensures { OnOk result (string_bytes out.new ≡ string_bytes out.old ++ cell_line sizes at form) }
{
    let moving = sizes.moving.max(1) as usize;
    let width = sizes.components().max(1);
    let hour = at / moving / width;
    let component = at / moving % width;
    let label = sizes.fixed as usize + at % moving;
    let [a0, a1, b0, b1] = form;
    let a = u16::from_be_bytes([a0, a1]);
    let b = u16::from_be_bytes([b0, b1]);
    writeln!(out, "{hour} {component} {label} {a} {b}")?;
    Ok(())
}

// Writes the line of the cell at a place, unless it is loose.
#[tactic(auto, using(points::proofs::Decided::loose_within, std::proofs::lemmas::Grind::common_steps), unfolding(crate::specs::Lines::line_of))]
fn put_cell<S: Recorded>(out: &mut String, sizes: Sizes, at: usize, cell: S) -> fmt::Result
    ensures { OnOk result (string_bytes out.new ≡ string_bytes out.old ++ line_of S.Scale.size S.Scale.has S.Recorded.form sizes at cell) }
{
    if cell.is_loose() {
        return Ok(());
    }
    put_line(out, sizes, at, cell.to_bytes())
}

// The listing of a course.
#[tactic(auto, using(crate::proofs::LineFacts::listing_more), unfolding(crate::specs::Lines::lines_from))]
pub fn listing<S: Recorded>(heap: Global, sizes: Sizes, course: &[S]) -> Result<String, fmt::Error>
    ensures { IfOk result (λ text. string_bytes text ≡ listing_of S.Scale.size S.Scale.has S.Recorded.form sizes course.now) }
{
    let mut out = String::new(heap);
    for (at, cell) in course.iter().enumerate() {
        put_cell(&mut out, sizes, at, *cell)?;
    }
    Ok(out)
}
