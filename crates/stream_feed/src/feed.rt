ghost use Rattle.std.specs.Prelude.{◌≡◌, true, ◌+◌, ◌≤◌, length};
ghost use Rattle.stream_feed.specs.Feed.{acceptable, Applying, fed_into, feed_result, fed_accepted};

use crate::apply::apply;
use crate::report::put_report;
use machine::Machine;
use stream_records::reader::Reader;
use stream_records::record::Record;

// Nothing was done, since the text might not fit.
#[derive(Clone, Copy, Debug, PartialEq, Eq)]
pub struct NoRoom;

// How many bytes were written, and the reader and the machine after them.
#[derive(Clone, Copy)]
pub struct Fed {
    pub written: usize,
    pub reader: Reader,
    pub machine: Machine,
}

// Whether a reader can take so many bytes, and so much room holds all that
// they may print: 56 bytes for every 4.
#[tactic(auto, unfolding(crate::specs::Feed::acceptable))]
fn acceptable(reader: Reader, bytes: usize, room: usize) -> bool
    ensures { result ≡ acceptable reader bytes room }
{
    if 10 < reader.length {
        return false;
    }
    let remaining = u64::MAX - reader.offset;
    if remaining < reader.length as u64 {
        return false;
    }
    if remaining - (reader.length as u64) < bytes as u64 {
        return false;
    }
    if room < 140 {
        return false;
    }
    bytes <= (room - 140) / 14
}

// A record applied and printed: the place after its text.
fn apply_and_print(
    machine: &mut Machine,
    record: Record,
    memory: &mut [u8],
    out: &mut [u8],
    at: usize,
) -> usize
    requires { at + 54 ≤ length out.old }
    ensures { Applying machine.old «record» memory.old out.old at machine.new memory.new out.new result }
{
    let reply = apply(*machine, record, memory);
    *machine = reply.machine;
    put_report(out, at, record, reply)
}

// Record after record: each search goes on from the end of the record before.
fn feed_accepted(
    mut reader: Reader,
    mut machine: Machine,
    piece: &[u8],
    memory: &mut [u8],
    out: &mut [u8],
) -> Fed
    requires { acceptable reader (length piece.now) (length out.old) ≡ true }
    ensures { feed_result reader machine (Ok result) memory.new out.new
        ≡ fed_accepted reader machine piece.now memory.old out.old }
{
    let mut i = 0;
    let mut written = 0;
    // No counter: each search goes on where the one before ended. A `while let` would hold all of it in its condition.
    loop {
        let found = reader.find(piece, i);
        reader = found.reader;
        i = found.at;
        let Some(record) = found.whole else {
            return Fed {
                written,
                reader,
                machine,
            };
        };
        written = apply_and_print(&mut machine, record, memory, out, written);
    }
}

// Takes a piece of a stream, and writes what it prints. It is refused, and nothing is done, where `out` might be too
// short. Reader and machine are two parameters: `finish` takes them too, and callers look into each.
#[tactic(auto, unfolding(crate::specs::Feed::fed_into))]
pub fn feed(
    reader: Reader,
    machine: Machine,
    piece: &[u8],
    memory: &mut [u8],
    out: &mut [u8],
) -> Result<Fed, NoRoom>
    ensures { feed_result reader machine result memory.new out.new
        ≡ fed_into reader machine piece.now memory.old out.old }
{
    if !acceptable(reader, piece.len(), out.len()) {
        return Err(NoRoom);
    }
    Ok(feed_accepted(reader, machine, piece, memory, out))
}
