ghost use Rattle.std.specs.Prelude.{◌≡◌, ◌≤◌, length};
ghost use Rattle.stream_records.specs.Reader.{progress_of};
ghost use Rattle.stream_text.specs.Put.{Put};
ghost use Rattle.stream_feed.specs.Stream.{bad_text};
ghost use Rattle.stream_feed.specs.Feed.{text_out, finished_into};

use crate::feed::NoRoom;
use machine::Machine;
use stream_records::reader::Reader;
use stream_text::lines::{put_bad_record, put_registers};

fn put_bad(out: &mut [u8], reader: Reader) -> usize
    requires { 35 ≤ length out.old }
    ensures { Put out.old 0 (bad_text (progress_of reader)) out.new result × (result ≤ 35) }
{
    if reader.stopped | (0 < reader.length) {
        return put_bad_record(out, 0, reader.offset);
    }
    0
}

// What the end of a stream may print.
pub const LAST_ROOM: usize = 3363;

// At the end of a stream, writes what it prints last. It is refused, and
// nothing is written, where `out` might be too short.
#[tactic(auto, unfolding(crate::specs::Feed::finished_into))]
pub fn finish(reader: Reader, machine: Machine, out: &mut [u8]) -> Result<usize, NoRoom>
    ensures { text_out result out.new ≡ finished_into reader machine out.old }
{
    if out.len() < LAST_ROOM {
        return Err(NoRoom);
    }
    let at = put_bad(out, reader);
    Ok(put_registers(out, at, &machine.registers))
}
