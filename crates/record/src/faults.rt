// What `read` can refuse. A fault names the layer that it comes from.
ghost use Rattle.std.specs.Prelude.{◌≡◌, Some};
ghost use Rattle.plan.specs.Texts.{refusal_text};
ghost use Rattle.record.specs.Faults.{number_of, place_of, placed};
ghost use Rattle.record.specs.declared.faults.BytesFault.TheVariants.{Frame as FrameCase};
ghost use Rattle.record.specs.declared.faults.Fault.TheVariants.{Bytes as BytesCase, House as HouseCase};
ghost use Rattle.record.specs.declared.faults.HouseFault.TheVariants.{Sizes as SizesCase};
ghost use Rattle.record.specs.declared.faults.RecordFault.TheVariants.{Line as LineCase, Entry as EntryCase};

use super::FrameFault;
use examining::Defect;
use plan::Refusal;
use record_entry::EntryFault;
use record_line::LineFault;
use scale::NotABound;
use std::error::Error;
use std::fmt;

// The fault of a file, with the number of the record that has it.
#[derive(Clone, Copy, PartialEq, Eq, Debug)]
pub enum Fault {
    // The bytes are no record file.
    Bytes(BytesFault),
    // Four bytes of a record are no bound.
    Scale { at: usize, cause: NotABound },
    // The records do not fit the house or its tables.
    House(HouseFault),
    // The plan does not file the fact of a record.
    Plan { at: usize, cause: Refusal },
}

#[derive(Clone, Copy, PartialEq, Eq, Debug)]
pub enum BytesFault {
    // The file as a whole.
    Frame(FrameFault),
    // An unknown letter, a byte without a name that is not 0, or a quorum above 200.
    Record { at: usize },
}

#[derive(Clone, Copy, PartialEq, Eq, Debug)]
pub enum HouseFault {
    // A size outside its limits.
    Sizes(Defect),
    // A table without space, or a fixed bound without a place that is loose.
    Record { at: usize },
}

impl Fault {
    // The number by which this fault is told.
    pub fn number(self) -> u8
        ensures { result ≡ number_of self }
    {
        match self {
            Fault::Bytes(BytesFault::Frame(fault)) => fault.number(),
            Fault::Bytes(BytesFault::Record { .. }) => 22,
            Fault::Scale { .. } => 23,
            Fault::House(HouseFault::Sizes(defect)) => defect.number(),
            Fault::House(HouseFault::Record { .. }) => 24,
            Fault::Plan { cause, .. } => cause.number(),
        }
    }

    // Its place: the number of the record, counted from 0, or which size; 0 for the file as a whole.
    pub fn place(self) -> usize
        ensures { result ≡ place_of self }
    {
        match self {
            Fault::Bytes(BytesFault::Frame(_)) => 0,
            Fault::Bytes(BytesFault::Record { at }) => at,
            Fault::Scale { at, .. } => at,
            Fault::House(HouseFault::Sizes(defect)) => defect.place(),
            Fault::House(HouseFault::Record { at }) => at,
            Fault::Plan { at, .. } => at,
        }
    }
}

// The text of a fault: its number and its place, as that of a plan's refusal. A trait for these two lines would be longer.
impl fmt::Display for Fault {
    ghost output = { λ f. Some (refusal_text (number_of f) (place_of f)) };

    fn fmt<W: fmt::Write>(&self, f: &mut fmt::Formatter<W>) -> fmt::Result {
        let number = self.number();
        let place = self.place();
        write!(f, "refused {number} {place}")
    }
}

impl Error for Fault {}

impl From<FrameFault> for Fault {
    ghost from_gives = { λ x r. r ≡ BytesCase (FrameCase x) };

    fn from(value: FrameFault) -> Fault {
        Fault::Bytes(BytesFault::Frame(value))
    }
}

impl From<Defect> for Fault {
    ghost from_gives = { λ x r. r ≡ HouseCase (SizesCase x) };

    fn from(value: Defect) -> Fault {
        Fault::House(HouseFault::Sizes(value))
    }
}

// The fault of a record, whichever it is.
#[derive(Clone, Copy, PartialEq, Eq, Debug)]
pub(super) enum RecordFault {
    Line(LineFault),
    Entry(EntryFault),
}

impl RecordFault {
    // The fault of the record with this number.
    pub(super) fn at(self, at: usize) -> Fault
        ensures { result ≡ placed self at }
    {
        match self {
            RecordFault::Line(LineFault::Bytes) => Fault::Bytes(BytesFault::Record { at }),
            RecordFault::Line(LineFault::Scale(cause)) => Fault::Scale { at, cause },
            RecordFault::Entry(EntryFault::House) => Fault::House(HouseFault::Record { at }),
            RecordFault::Entry(EntryFault::Plan(cause)) => Fault::Plan { at, cause },
        }
    }
}

impl From<LineFault> for RecordFault {
    ghost from_gives = { λ x r. r ≡ LineCase x };

    fn from(value: LineFault) -> RecordFault {
        RecordFault::Line(value)
    }
}

impl From<EntryFault> for RecordFault {
    ghost from_gives = { λ x r. r ≡ EntryCase x };

    fn from(value: EntryFault) -> RecordFault {
        RecordFault::Entry(value)
    }
}
