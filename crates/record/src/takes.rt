// Taking the records of a file one by one.
ghost use Rattle.std.specs.Prelude.{◌≡◌};
ghost use Rattle.record_entry.specs.Entries.{Lent};
ghost use Rattle.record.specs.Contents.{fixed_places_lem};
ghost use Rattle.record.specs.Takes.{TakeDoes, TakeAllDoes, Fresh};

use super::faults::{Fault, RecordFault};
use house::Sizes;
use plan::Draft;
use record_entry::{Tables, enter};
use record_line::parse;
use scale::Recorded;

// How many places the fixed bounds have in a table of this length: one for each fixed label of each component, or all if
// there are fewer.
pub(super) fn fixed_places(sizes: Sizes, long: usize) -> usize
    ensures { result ≡ fixed_places_lem sizes long }
{
    (sizes.components() * usize::from(sizes.fixed)).min(long)
}

// Reads a record and enters it.
fn take<S: Recorded>(
    line: &[u8; 16],
    sizes: Sizes,
    tables: &mut Tables<S>,
    draft: &mut Draft,
) -> Result<(), RecordFault>
    ensures does { TakeDoes S.Scale.size S.Scale.has S.Recorded.form line.now sizes tables.old draft.old result tables.new draft.new }
    ensures lent { Lent tables.old tables.new }
{
    let record = parse(line)?;
    Ok(enter(record, sizes, tables, draft)?)
}

// Takes every record in turn, up to the first that is refused. No record has been taken before.
pub(super) fn take_all<S: Recorded>(
    lines: &[[u8; 16]],
    sizes: Sizes,
    tables: &mut Tables<S>,
) -> Result<Draft, Fault>
    requires { Fresh S.Scale.size S.Scale.has sizes tables.old }
    ensures does { TakeAllDoes S.Scale.size S.Scale.has S.Recorded.form lines.now sizes tables.old result tables.new }
    ensures lent { Lent tables.old tables.new }
{
    let mut draft = Draft::open();
    for (i, line) in lines.iter().enumerate() {
        take(line, sizes, tables, &mut draft).map_err(|fault| fault.at(i))?;
    }
    Ok(draft)
}
