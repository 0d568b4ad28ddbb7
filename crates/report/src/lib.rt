// From the bytes of a record file to the text that the programs print.
#![tactic(auto)]

ghost use Rattle.std.specs.Prelude.{◌≡◌, IfOk, OnOk, string_bytes};
ghost use Rattle.report.specs.Text.{Texted, Concluded, Told, Reported, Ran};

use anyhow::bail;
use book::Book;
use house::{Fact, House};
use listing::listing;
use plan::{Draft, Outcome};
use record::{Content, read};
use record_entry::Tables;
use scale::{Recorded, Scale};
use std::alloc::Global;
use std::io::{Read, Write};
use workspace::{Described, Workspace, copies, describe};

// How many cells are held at most.
const CELLS: usize = 8192;

// Settles a draft, and gives the text for what that came to.
fn settled_text<S: Recorded, B: Book<S>>(
    heap: Global,
    house: &House<S>,
    book: &B,
    draft: Draft,
    facts: &[Fact<S>],
    course: &mut [S],
) -> anyhow::Result<String>
    ensures { IfOk result (λ s. Texted S.Scale.size S.Scale.has S.Recorded.form house.now (B.Book.formulas book.now) (B.Book.says book.now) draft facts.now course.old (string_bytes s)) }
{
    let sizes = house.sizes;
    match draft.settle(house, book, facts, course) {
        Outcome::Settled(_plan) => Ok(listing(heap, sizes, course)?),
        Outcome::Contradiction { at, .. } => Ok(format!(in heap; "{at}\n")?),
        Outcome::Refused { refusal, .. } => Ok(format!(in heap; "{refusal}\n")?),
    }
}

// The text of a file that is read: its house and its stairs under its quorum are those of the tables, and its draft is
// settled on cells of which all are loose at first.
fn conclude<S: Recorded>(
    heap: Global,
    content: Content,
    tables: &Tables<S>,
) -> anyhow::Result<String>
    ensures { IfOk result (λ s. Concluded S.Scale.size S.Scale.has S.Recorded.form content tables.now (string_bytes s)) }
{
    let Content {
        draft,
        sizes,
        quorum,
    } = content;
    let Some(Described { house, book }) = describe(sizes, quorum, tables) else {
        bail!("the quorum is above 200");
    };
    let mut course = copies(heap, S::loose(), sizes.cells().min(CELLS))?;
    settled_text(heap, &house, &book, draft, tables.facts, &mut course)
}

// Reads a file into the tables, and gives its text.
fn told<S: Recorded>(heap: Global, bytes: &[u8], tables: &mut Tables<S>) -> anyhow::Result<String>
    ensures { IfOk result (λ s. Told S.Scale.size S.Scale.has S.Recorded.form bytes.now tables.old (string_bytes s)) }
{
    match read(bytes, tables) {
        Ok(content) => conclude(heap, content, tables),
        Err(fault) => Ok(format!(in heap; "{fault}\n")?),
    }
}

// The text for a record file. The only other end is want of memory.
pub fn report<S: Recorded>(heap: Global, bytes: &[u8]) -> anyhow::Result<String>
    ensures { IfOk result (λ s. Reported S.Scale.size S.Scale.has S.Recorded.form bytes.now (string_bytes s)) }
{
    let mut space = Workspace::<S>::new(heap)?;
    told(heap, bytes, &mut space.tables())
}

// Reads a record file, whole, and writes its text.
pub fn run<S: Recorded, R: Read, W: Write>(
    heap: Global,
    input: &mut R,
    output: &mut W,
) -> anyhow::Result<()>
    ensures { OnOk result (Ran S.Scale.size S.Scale.has S.Recorded.form (R.remaining input.old) (R.remaining input.new) (W.contents output.old) (W.contents output.new)) }
{
    let mut bytes = Vec::new(heap);
    let _ = input.read_to_end(&mut bytes)?;
    let text = report::<S>(heap, &bytes)?;
    output.write_all(text.as_bytes())?;
    Ok(())
}

#[cfg(test)]
mod tests {
    use super::*;
    use scale::Modes;

    #[test]
    fn a_file_from_memory_is_told(rt: HostRuntime) -> anyhow::Result<()> {
        let mut file: &[u8] = b"no record file";
        let mut text = Vec::new(rt.alloc());
        run::<Modes, _, _>(rt.alloc(), &mut file, &mut text)?;
        assert_eq!(rt; text.as_slice(), b"refused 21 0\n".as_slice());
        Ok(())
    }
}
