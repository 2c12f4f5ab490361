ghost use Rattle.std.specs.Prelude.{◌≡◌, ◌*◌, ◌^◌, ◌<◌};
ghost use Rattle.stream_records.specs.Record.{kind_of, served_kind, layout_of, record_of};

use crate::record::Record;

// What a record is, by its first byte.
#[derive(Clone, Copy, Debug, PartialEq, Eq)]
pub enum Kind {
    RegisterEntry,
    PredicateEntry,
    StateWord,
    Register,
    Run,
    Memory,
}

// A byte that stands for no kind.
#[derive(Clone, Copy, Debug, PartialEq, Eq)]
pub struct UnknownKind;

// How many bytes the two fields of a kind's body have.
#[derive(Clone, Copy)]
pub struct Layout {
    pub first: usize,
    pub second: usize,
}

impl TryFrom<u8> for Kind {
    type Error = UnknownKind;

    ghost try_from_gives = { λ byte result. result ≡ kind_of byte };

    fn try_from(byte: u8) -> Result<Self, UnknownKind> {
        match byte {
            1 => Ok(Kind::RegisterEntry),
            2 => Ok(Kind::PredicateEntry),
            3 => Ok(Kind::StateWord),
            4 => Ok(Kind::Register),
            5 => Ok(Kind::Run),
            6 => Ok(Kind::Memory),
            _ => Err(UnknownKind),
        }
    }
}

impl Kind {
    // The kind of a byte, where run records are served, and where they are not: there their kind is unknown.
    #[tactic(auto, unfolding(crate::specs::Record::served_kind))]
    pub(crate) fn served(runs: bool, byte: u8) -> Result<Kind, UnknownKind>
        ensures { result ≡ served_kind runs byte }
    {
        match Kind::try_from(byte) {
            Ok(Kind::Run) if !runs => Err(UnknownKind),
            kind => kind,
        }
    }

    pub(crate) fn layout(self) -> Layout
        ensures { result ≡ layout_of self }
    {
        let (first, second) = match self {
            Kind::RegisterEntry | Kind::PredicateEntry => (1, 2),
            Kind::StateWord => (4, 0),
            Kind::Register => (1, 8),
            Kind::Run => (4, 2),
            Kind::Memory => (2, 8),
        };
        Layout { first, second }
    }

    // The record of this kind with these fields.
    pub(crate) fn record(self, first: u64, second: u64) -> Record
        requires { (first < 2 ^ (8 * (layout_of self).first)) × (second < 2 ^ (8 * (layout_of self).second)) }
        ensures { result ≡ record_of self first second }
    {
        match self {
            Kind::RegisterEntry => Record::RegisterEntry(first as u8, second as u16),
            Kind::PredicateEntry => Record::PredicateEntry(first as u8, second as u16),
            Kind::StateWord => Record::StateWord(first as u32),
            Kind::Register => Record::Register(first as u8, second),
            Kind::Run => Record::Run(first as u32, second as u16),
            Kind::Memory => Record::Memory(first as u16, second),
        }
    }
}
