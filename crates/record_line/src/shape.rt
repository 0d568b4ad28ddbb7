// The shape of a record, before four of its bytes are read as a bound.
ghost use Rattle.std.specs.Prelude.{◌≡◌, ◌<◌, ◌↔◌, IsTrue, MatchOption};
ghost use Rattle.record_line.specs.Lines.{Clear, Formed, named_end as named_end_lem};

use book::MOST_ELIGIBLE;

// The first byte behind those that a letter names. None where it is no letter of a record.
fn named_end(letter: u8) -> Option<usize>
    ensures { MatchOption result (named_end_lem letter ≡ 0) (λ end. (end ≡ named_end_lem letter) × (0 < end)) }
{
    match letter {
        b'S' => Some(7),
        b'E' => Some(5),
        b'X' | b'T' | b'Q' => Some(8),
        b'C' | b'K' => Some(4),
        b'R' => Some(9),
        b'F' => Some(10),
        _ => None,
    }
}

// Whether every byte from `from` on is 0.
fn clear(line: &[u8; 16], from: usize) -> bool
    ensures { IsTrue result ↔ Clear line.now from }
{
    line.iter().skip(from).all(|byte| *byte == 0)
}

// Whether the bytes have the shape of a record: a known letter, and 0 in the bytes that it does not name. The bytes 2 and
// 3 of T have no name, and the quorum of S has a limit.
pub(super) fn has_shape(line: &[u8; 16]) -> bool
    ensures { IsTrue result ↔ Formed line.now }
{
    let fits = match *line {
        [b'S', _, _, _, _, _, quorum, ..] => quorum <= MOST_ELIGIBLE,
        [b'T', _, 0, 0, ..] => true,
        [b'T', ..] => false,
        _ => true,
    };
    fits && named_end(line[0]).is_some_and(|end| clear(line, end))
}
