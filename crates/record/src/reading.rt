// Reading a record file.
ghost use Rattle.std.specs.Prelude.{◌≡◌, ◌≤◌, length};
ghost use Rattle.record_entry.specs.Entries.{Lent};
ghost use Rattle.record.specs.Contents.{fixed_places_lem};
ghost use Rattle.record.specs.Reads.{edge_records_lem, sizes_of_lem, Loosened, Started, ReadDoes};

use super::faults::Fault;
use super::sizes_record;
use super::takes::{fixed_places, take_all};
use engine::loosen;
use examining::check_sizes;
use house::Sizes;
use plan::Draft;
use record_entry::Tables;
use scale::{Recorded, Scale};

// What a file says besides its tables: the draft that its facts are filed in, the sizes, and the quorum.
#[derive(Drop)]
pub struct Content {
    pub draft: Draft,
    pub sizes: Sizes,
    pub quorum: u8,
}

// How many records are edges.
fn edge_records(lines: &[[u8; 16]]) -> u16
    requires { length lines.now ≤ 2048 }
    ensures { result ≡ edge_records_lem lines.now }
{
    lines.iter().filter(|line| line[0] == b'E').count() as u16
}

// The sizes that an S record gives to a house with so many edges.
fn sizes_of(line: &[u8; 16], edges: u16) -> Sizes
    ensures { result ≡ sizes_of_lem line.now edges }
{
    let [_, n0, n1, moving, fixed, last, ..] = *line;
    Sizes {
        nodes: u16::from_be_bytes([n0, n1]),
        edges,
        fixed,
        moving,
        last,
    }
}

// Makes the places of the fixed bounds loose, and says how many there are.
fn loosen_places<S: Scale>(table: &mut [S], sizes: Sizes) -> usize
    ensures does { Loosened S.Scale.size S.Scale.has sizes table.old table.new }
    ensures count { result ≡ fixed_places_lem sizes (length table.old) }
{
    let places = fixed_places(sizes, table.len());
    loosen(&mut table[..places]);
    places
}

// Takes all records out of the tables, and makes the places of the fixed bounds loose.
fn start<S: Scale>(tables: &mut Tables<S>, sizes: Sizes)
    ensures does { Started S.Scale.size S.Scale.has sizes tables.old tables.new }
    ensures lent { Lent tables.old tables.new }
{
    tables.edges.clear();
    tables.fixed.count = loosen_places(tables.fixed.table, sizes);
    tables.tests.clear();
    tables.conditions.clear();
    tables.constraints.clear();
    tables.rules.clear();
    tables.steps.clear();
}

// Reads a file into the tables. Refuses a length above 32,768 or that is no multiple of sixteen, then a file without its
// one S record, then sizes outside their limits: then nothing is written. After that the tables have no records, the
// places of the fixed bounds become loose, and the records of the file are taken in turn, up to the first that is refused:
// the earlier ones stay.
pub fn read<S: Recorded>(bytes: &[u8], tables: &mut Tables<S>) -> Result<Content, Fault>
    ensures does { ReadDoes S.Scale.size S.Scale.has S.Recorded.form bytes.now tables.old result tables.new }
    ensures lent { Lent tables.old tables.new }
{
    let at = sizes_record(bytes)?;
    let (lines, _) = bytes.as_chunks::<16>();
    let sizes = sizes_of(&lines[at], edge_records(lines));
    let quorum = lines[at][6];
    check_sizes(sizes)?;
    start(tables, sizes);
    let draft = take_all(lines, sizes, tables)?;
    Ok(Content {
        draft,
        sizes,
        quorum,
    })
}
