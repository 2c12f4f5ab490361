ghost use Rattle.std.specs.Prelude.{◌≡◌};
ghost use Rattle.stream_records.specs.declared.record.NoRecord.TheVariants.{Unknown};
ghost use Rattle.stream_records.specs.Record.{next_record};

use crate::kind::{Kind, UnknownKind};
use memory::read::read;

#[derive(Clone, Copy)]
pub enum Record {
    // An index and an entry's word.
    RegisterEntry(u8, u16),
    PredicateEntry(u8, u16),
    StateWord(u32),
    // An index and a value.
    Register(u8, u64),
    // A word and an allowance.
    Run(u32, u16),
    // An address and a value.
    Memory(u16, u64),
}

// Why there is no record at a place of some bytes.
#[derive(Clone, Copy, Debug, PartialEq, Eq)]
pub enum NoRecord {
    // Its last bytes are missing.
    Cut,
    // A kind that there is not.
    Unknown,
    // No byte.
    End,
}

impl From<UnknownKind> for NoRecord {
    ghost from_gives = { λ _ none. none ≡ Unknown };

    fn from(_unknown: UnknownKind) -> NoRecord {
        NoRecord::Unknown
    }
}

// The record at a place, and the place after it, where run records are served or not. The theorems on records speak of
// the place, so that it is passed and no slice.
#[tactic(auto, using(crate::proofs::Layouts::small), unfolding(crate::specs::Record::next_record, crate::specs::Record::body_at))]
pub fn next_record(runs: bool, bytes: &[u8], at: usize) -> Result<(Record, usize), NoRecord>
    ensures { result ≡ next_record runs bytes.now at }
{
    if bytes.len() <= at {
        return Err(NoRecord::End);
    }
    let kind = Kind::served(runs, bytes[at])?;
    let fields = kind.layout();
    let body = at + 1;
    if bytes.len() - body < fields.first + fields.second {
        return Err(NoRecord::Cut);
    }
    let middle = body + fields.first;
    let first = read(bytes, body, fields.first);
    let second = read(bytes, middle, fields.second);
    Ok((kind.record(first, second), middle + fields.second))
}
