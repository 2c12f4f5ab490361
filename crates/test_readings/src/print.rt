// What is printed of the readings. Each function prints by what came before it, not one value, so none is a Display.
use test_reading_lines::line::{Answered, Line};
use test_reading_lines::tally::{Outcome, Tally};

fn print_line(rt: &impl Print, number: u64, text: &[u8]) {
    let _ = print!(rt; "\n  line {number}: ");
    let _ = rt.write_all(text);
}

// A line, by its number in the file, and what its call answered.
pub(crate) fn print_outcome(
    rt: &impl Print,
    outcome: Outcome,
    number: u64,
    text: &[u8],
    line: Line,
    came: Answered,
) {
    match outcome {
        Outcome::Name => {
            let _ = rt.write_all(text);
        }
        Outcome::Differs => {
            print_line(rt, number, text);
            if let Line::Call(call) = line {
                let _ = print!(rt; ": expected {}, came {came}", call.expected);
            }
        }
        Outcome::Damaged => {
            print_line(rt, number, text);
            let _ = print!(rt; ": damaged");
        }
        Outcome::Note | Outcome::Agrees => {}
    }
}

// The end of a reading that began at a tally: its name's line is still open.
pub(crate) fn print_end(rt: &impl Print, start: Tally, end: Tally) {
    if (end.differ != start.differ) | (end.damaged != start.damaged) {
        let _ = println!(rt; "");
        return;
    }
    if end.readings != start.readings {
        let _ = println!(rt; ": ok");
    }
}

// A file's lines come next.
pub(crate) fn print_file(rt: &impl Print, path: &[u8], whole: bool) {
    let _ = rt.write_all(path);
    if whole {
        let _ = println!(rt; "");
        return;
    }
    let _ = println!(rt; ": not read whole");
}
