use crate::tally::Tally;
use arrayvec::ArrayVec;
use std::io;
use std::io::Read;

// The line that has not ended. It has room for a byte more than a whole line has, so a line that
// is cut there is damaged all the same.
type Pending = ArrayVec<u8, 60>;

fn take_byte(rt: &impl Print, pending: &mut Pending, tally: &mut Tally, byte: u8) {
    if byte == b'\n' {
        tally.add_line(rt, pending.as_slice());
        pending.clear();
    } else {
        let _ = pending.try_push(byte);
    }
}

// A last line may lack its line end. The loop counts since a proved one has to end: no run takes
// so many turns.
pub(crate) fn check_lines(
    rt: &impl Print,
    file: &mut impl Read,
    tally: &mut Tally,
) -> io::Result<()> {
    let mut pending = Pending::new();
    tally.lines = 0;
    for _ in 0..u64::MAX {
        let mut buffer = [0u8; 65536];
        let n = file.read(&mut buffer)?;
        if n == 0 {
            break;
        }
        for &byte in &buffer[..n] {
            take_byte(rt, &mut pending, tally, byte);
        }
    }
    if !pending.is_empty() {
        tally.add_line(rt, pending.as_slice());
    }
    Ok(())
}
