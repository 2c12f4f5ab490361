#![tactic(auto)]

// A record stream that is read in pieces, applied to a fresh machine, and what it prints written to standard output.
ghost use Rattle.std.specs.Prelude.{◌≡◌, OnOk};
ghost use Rattle.std.specs.Io.{ReadsAtMost};
ghost use Rattle.stream_records.specs.Reader.{progress_of};
ghost use Rattle.stream_feed.specs.Stream.{last_text};
ghost use Rattle.stream_io.specs.Output.{Next, Sends, Whole, fresh_session, SessionReached, FedBy, Turned};

use failures::Failure;
use machine::Machine;
use std::io;
use std::io::Read;
use std::ops::ControlFlow;
use stream_feed::feed::feed;
use stream_feed::finish::finish;
use stream_records::reader::Reader;

// The rest can't be read or written. Why is said on standard error.
#[derive(Clone, Copy, Debug, PartialEq, Eq)]
pub struct Stopped;

// What the runner has between two pieces.
#[derive(Clone, Copy)]
pub struct Session {
    pub reader: Reader,
    pub machine: Machine,
    pub memory: [u8; 4096],
    // How many bytes of the output are written.
    pub written: u64,
}

// Writes to standard output the bytes of the output that follow the first `written`, and counts them with those.
fn write_next(rt: &(impl Print + Eprint), written: u64, text: &[u8]) -> Result<u64, Stopped>
    requires { Next written text.now }
    ensures { Sends written text.now result }
{
    let Some(count) = written.checked_add(text.len() as u64) else {
        let _ = eprintln!(rt; "too much output");
        return Err(Stopped);
    };
    if let Err(error) = rt.write_all(text) {
        let _ = eprintln!(rt; "standard output: {}", Failure(error));
        return Err(Stopped);
    }
    Ok(count)
}

// The runner's `out` is long enough, but its type doesn't say so.
fn say_no_room(rt: &impl Eprint) -> Stopped {
    let _ = eprintln!(rt; "no room for the text");
    Stopped
}

// The next piece. There is none once the reader has stopped.
fn read_piece(input: &mut impl Read, stopped: bool, piece: &mut [u8]) -> io::Result<usize>
    ensures { ReadsAtMost result piece.new }
{
    if stopped {
        return Ok(0);
    }
    input.read(piece)
}

// After a read that failed nobody knows what the rest of the stream would have left in the registers.
fn say_unread(rt: &impl Eprint, name: &str, error: io::Error) {
    let _ = eprintln!(rt; "{name}: {}", Failure(error));
    let _ = eprintln!(rt; "the stream was not read to its end: its registers are not printed");
}

impl Session {
    fn fresh() -> Session
        ensures { result ≡ fresh_session }
    {
        Session {
            reader: Reader::fresh(),
            machine: Machine::fresh(),
            memory: [0; 4096],
            written: 0,
        }
    }

    // Writes what the end of the stream prints.
    fn write_last(&self, rt: &(impl Print + Eprint), out: &mut [u8]) -> Result<u64, Stopped>
        requires { Next self.now.written (last_text (progress_of self.now.reader) self.now.machine.registers) }
        ensures { Sends self.now.written (last_text (progress_of self.now.reader) self.now.machine.registers) result }
    {
        let Ok(length) = finish(self.reader, self.machine, out) else {
            return Err(say_no_room(rt));
        };
        write_next(rt, self.written, &out[..length])
    }

    // Feeds a piece, and writes what it prints.
    fn feed_and_write(
        &mut self,
        rt: &(impl Print + Eprint),
        piece: &[u8],
        out: &mut [u8],
    ) -> Result<(), Stopped>
        requires { SessionReached self.old }
        ensures { OnOk result (FedBy self.old piece.now self.new) }
    {
        let Ok(fed) = feed(self.reader, self.machine, piece, &mut self.memory, out) else {
            return Err(say_no_room(rt));
        };
        let written = write_next(rt, self.written, &out[..fed.written])?;
        self.reader = fed.reader;
        self.machine = fed.machine;
        self.written = written;
        Ok(())
    }

    // The next piece, or the end, with the number of bytes of the whole output.
    fn take_turn(
        &mut self,
        rt: &(impl Print + Eprint),
        input: &mut impl Read,
        name: &str,
        out: &mut [u8],
    ) -> Result<ControlFlow<u64>, Stopped>
        requires { SessionReached self.old }
        ensures { Turned result self.new }
    {
        let mut piece = [0u8; 4096];
        let n = match read_piece(input, self.reader.stopped, &mut piece) {
            Ok(n) => n,
            Err(error) => {
                say_unread(rt, name, error);
                return Err(Stopped);
            }
        };
        if n == 0 {
            let written = self.write_last(rt, out)?;
            return Ok(ControlFlow::Break(written));
        }
        self.feed_and_write(rt, &piece[..n], out)?;
        Ok(ControlFlow::Continue(()))
    }
}

// Runs the stream of an input on a fresh machine with 4,096 zero bytes of memory,
// and answers how many bytes its output has, if all of it was written. The name says what can't be read.
// A proved loop has to end, and nothing says that the input does: so it counts its turns, up to a number that no run
// reaches.
pub fn run_descriptor(
    rt: &(impl Print + Eprint),
    input: &mut impl Read,
    name: &str,
) -> Result<u64, Stopped>
    ensures { Whole result }
{
    let mut session = Session::fresh();
    // What a piece of 4,096 bytes may print.
    let mut out = [0u8; 57484];
    for _ in 0..u64::MAX {
        if let ControlFlow::Break(written) = session.take_turn(rt, input, name, &mut out)? {
            return Ok(written);
        }
    }
    Err(Stopped)
}
