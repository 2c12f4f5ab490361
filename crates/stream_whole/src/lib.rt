#![tactic(auto)]

// A whole stream in one call: its bytes in, the text that it prints out.
ghost use Rattle.std.specs.Prelude.{◌≡◌};
ghost use Rattle.stream_feed.specs.Feed.{text_out};
ghost use Rattle.stream_whole.specs.Whole.{run_into};

use machine::Machine;
use stream_feed::feed::{NoRoom, feed};
use stream_feed::finish::{LAST_ROOM, finish};
use stream_records::reader::Reader;

// Runs a stream on a fresh machine with 4,096 zero bytes of memory, and writes what it prints.
// It is refused, and nothing is written, where `out` might be too short.
pub fn run_stream(bytes: &[u8], out: &mut [u8]) -> Result<usize, NoRoom>
    ensures { text_out result out.new ≡ run_into bytes.now out.old }
{
    if out.len() < LAST_ROOM {
        return Err(NoRoom);
    }
    let room = out.len() - LAST_ROOM;
    let mut memory = [0u8; 4096];
    let fed = feed(
        Reader::fresh(),
        Machine::fresh(),
        bytes,
        &mut memory,
        &mut out[..room],
    )?;
    let more = finish(fed.reader, fed.machine, &mut out[fed.written..])?;
    Ok(fed.written + more)
}
