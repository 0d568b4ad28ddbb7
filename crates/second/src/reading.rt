// Reading a record file.
use super::network::{Body, Condition, Constraint, Edge, Fact, Network, Rule, Stair, Test};
use super::refusals::{Refusal, Size, Stop};
use super::sets::{Kind, Set};
use std::alloc::{AllocError, Global};

// The most bytes of a file.
const BYTES: usize = 32_768;

// The bytes of a record.
const RECORD: usize = 16;

// The most tests, conditions, constraints or rules.
const RECORDS: usize = 64;

// The most stairs.
const STAIRS: usize = 256;

// The most facts.
const FACTS: usize = 1000;

// The highest quorum.
const QUORUM: usize = 200;

// The number of a rule's condition where there is none.
const NO_CONDITION: usize = 255;

// A record: its number in the file, and its bytes. The first is a letter, which says what it is a record of.
#[derive(Clone, Copy)]
struct Record<'a> {
    place: usize,
    bytes: &'a [u8],
}

// Whether byte k of a record with this letter has a name.
fn named(letter: u8, k: usize) -> bool {
    match letter {
        b'S' => k <= 6,
        b'E' => k <= 4,
        b'X' => k <= 7,
        b'T' => k <= 1 || (4..=7).contains(&k),
        b'C' | b'K' => k <= 3,
        b'R' => k <= 8,
        b'Q' => k <= 7,
        b'F' => k <= 9,
        _ => false,
    }
}

impl Record<'_> {
    // Byte k, and 0 where there is none.
    fn byte(self, k: usize) -> u8 {
        self.bytes.get(k).copied().unwrap_or(0)
    }

    fn letter(self) -> u8 {
        self.byte(0)
    }

    // A number of one byte.
    fn single(self, k: usize) -> usize {
        self.byte(k) as usize
    }

    // A number of two bytes.
    fn double(self, k: usize) -> usize {
        u16::from_be_bytes([self.byte(k), self.byte(k.saturating_add(1))]) as usize
    }

    // Whether the letter is known, the nameless bytes are 0, and a quorum is not too high.
    fn well_formed(self) -> bool {
        let letter = self.letter();
        let mut bytes = self.bytes.iter().enumerate();
        named(letter, 0)
            && bytes.all(|(k, byte)| named(letter, k) || *byte == 0)
            && (letter != b'S' || self.single(6) <= QUORUM)
    }

    fn edge(self) -> Edge {
        Edge {
            from: self.double(1),
            to: self.double(3),
        }
    }

    // The bound in bytes 4 to 7.
    fn bound(self, kind: Kind) -> Result<Set, Refusal> {
        let form = [self.byte(4), self.byte(5), self.byte(6), self.byte(7)];
        kind.bound(form).ok_or(Refusal::Bound(self.place))
    }

    fn test(self, kind: Kind) -> Result<Test, Refusal> {
        Ok(Test {
            label: self.single(1),
            bound: self.bound(kind)?,
        })
    }

    fn condition(self) -> Condition {
        let (a, b) = (self.single(2), self.single(3));
        match self.single(1) {
            0 => Condition::Met(a),
            1 => Condition::Not(a),
            2 => Condition::Both(a, b),
            3 => Condition::Either(a, b),
            kind => Condition::Unknown(kind),
        }
    }

    // The body in byte k and the next.
    fn body(self, k: usize) -> Body {
        Body {
            first: self.single(k),
            count: self.single(k.saturating_add(1)),
        }
    }

    fn constraint(self) -> Constraint {
        Constraint {
            head: self.single(1),
            body: self.body(2),
        }
    }

    // The condition that a rule names in byte k, if it names one.
    fn named_condition(self, k: usize) -> Option<usize> {
        match self.single(k) {
            NO_CONDITION => None,
            i => Some(i),
        }
    }

    fn rule(self) -> Rule {
        Rule {
            target: self.single(1),
            delay: self.single(2),
            onto: self.named_condition(3),
            along: self.named_condition(4),
            source: self.named_condition(5),
            body: self.body(6),
            formula: self.single(8),
        }
    }

    fn stair(self, kind: Kind) -> Result<Stair, Refusal> {
        Ok(Stair {
            formula: self.single(1),
            share: self.double(2),
            bound: self.bound(kind)?,
        })
    }

    fn fact(self, kind: Kind) -> Result<Fact, Refusal> {
        Ok(Fact {
            component: self.double(1),
            label: self.single(3),
            bound: self.bound(kind)?,
            from: self.single(8),
            to: self.single(9),
        })
    }

    // Puts what the record says at the end of its table, if there is room for so many.
    fn put<T: Drop>(self, table: &mut Vec<T>, room: usize, entry: T) -> Result<(), Stop> {
        if table.len() >= room {
            return Err(Refusal::NoRoom(self.place).into());
        }
        table.push(entry)?;
        Ok(())
    }

    // Sets a fixed bound that is still loose.
    fn set_fixed(self, network: &mut Network) -> Result<(), Refusal> {
        let bound = self.bound(network.kind)?;
        let (component, label) = (self.double(1), self.single(3));
        if component >= network.components() || label >= network.fixed_labels {
            return Err(Refusal::NoRoom(self.place));
        }
        let place = network.fixed_place(component, label);
        match network.fixed.get_mut(place) {
            Some(old) if *old == network.kind.all() => {
                *old = bound;
                Ok(())
            }
            _ => Err(Refusal::NoRoom(self.place)),
        }
    }

    // Takes the record into a network that has the sizes and edges of the file.
    fn take(self, network: &mut Network) -> Result<(), Stop> {
        if !self.well_formed() {
            return Err(Refusal::Form(self.place).into());
        }
        let kind = network.kind;
        match self.letter() {
            b'X' => Ok(self.set_fixed(network)?),
            b'T' => self.put(&mut network.tests, RECORDS, self.test(kind)?),
            b'C' => self.put(&mut network.conditions, RECORDS, self.condition()),
            b'K' => self.put(&mut network.constraints, RECORDS, self.constraint()),
            b'R' => self.put(&mut network.rules, RECORDS, self.rule()),
            b'Q' => self.put(&mut network.stairs, STAIRS, self.stair(kind)?),
            b'F' => network.file(self.fact(kind)?, FACTS, self.place),
            // The sizes and the edges were taken before.
            _ => Ok(()),
        }
    }
}

// The records of a file.
fn records(heap: Global, bytes: &[u8]) -> Result<Vec<Record<'_>>, AllocError> {
    bytes
        .chunks(RECORD)
        .enumerate()
        .map(|(place, bytes)| Record { place, bytes })
        .collect(heap)
}

// The only record of the sizes.
fn sizes_record<'a>(records: &[Record<'a>]) -> Result<Record<'a>, Refusal> {
    let mut sizes = records.iter().filter(|record| record.letter() == b'S');
    match (sizes.next(), sizes.next()) {
        (Some(record), None) => Ok(*record),
        _ => Err(Refusal::SizesRecord),
    }
}

// A network with the sizes of a file, its edges and nothing else.
fn sized(heap: Global, kind: Kind, records: &[Record<'_>]) -> Result<Network, Stop> {
    let sizes = sizes_record(records)?;
    let edges = records.iter().filter(|record| record.letter() == b'E');
    Ok(Network {
        kind,
        nodes: sizes.double(1),
        moving_labels: sizes.single(3),
        fixed_labels: sizes.single(4),
        last: sizes.single(5),
        quorum: sizes.single(6),
        edges: edges.map(|record| record.edge()).collect(heap)?,
        fixed: Vec::new(heap),
        tests: Vec::new(heap),
        conditions: Vec::new(heap),
        constraints: Vec::new(heap),
        rules: Vec::new(heap),
        stairs: Vec::new(heap),
        facts: Vec::new(heap),
    })
}

// Whether the sizes are within their limits.
fn check_sizes(network: &Network) -> Result<(), Refusal> {
    let sizes = [
        (Size::Nodes, (1..=200).contains(&network.nodes)),
        (Size::Edges, network.edges.len() <= 600),
        (Size::FixedLabels, network.fixed_labels <= 16),
        (Size::MovingLabels, (1..=8).contains(&network.moving_labels)),
        (Size::LastHour, network.last <= 63),
    ];
    match sizes.iter().find(|(_, right)| !right) {
        Some((size, _)) => Err(Refusal::Size(*size)),
        None => Ok(()),
    }
}

// The network that a file describes.
pub fn read(heap: Global, kind: Kind, bytes: &[u8]) -> Result<Network, Stop> {
    if bytes.len() > BYTES || bytes.len() % RECORD != 0 {
        return Err(Refusal::Length.into());
    }
    let records = records(heap, bytes)?;
    let mut network = sized(heap, kind, &records)?;
    check_sizes(&network)?;
    // Every fixed bound is loose until a record sets it.
    let fixed = network.components().saturating_mul(network.fixed_labels);
    network.fixed = vec![in heap; kind.all(); fixed]?;
    for record in records.iter() {
        record.take(&mut network)?;
    }
    Ok(network)
}
