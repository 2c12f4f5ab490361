// The lines of a file, each done and compared in turn.
use crate::bench::Bench;
use crate::print::{print_end, print_outcome};
use test_reading_lines::line::{Answered, Line, line_of};
use test_reading_lines::tally::{Tally, outcome_of};

// A line's call made, where it is one, and its answer compared. Another line has an answer too, at which `outcome_of`
// doesn't look.
fn run_line(rt: &impl Print, bench: &mut Bench, tally: &mut Tally, text: &[u8]) {
    let line = line_of(text);
    let came = match line {
        Line::Call(call) => {
            let answer = bench.call(call);
            Answered {
                answer: answer.number() as u64,
                value: answer.value(),
            }
        }
        _ => Answered {
            answer: 0,
            value: 0,
        },
    };
    let outcome = outcome_of(line, came);
    *tally = tally.with_outcome(outcome);
    print_outcome(rt, outcome, tally.line, text, line, came);
}

// A reading goes on to the next name or the end, and has a machine and a memory of its own.
pub(crate) fn run_text(rt: &impl Print, text: &[u8], start: Tally) -> Tally {
    let mut tally = start;
    let mut before = start;
    let mut bench = Bench::new();
    for line in text.split_inclusive(|&byte| byte == b'\n') {
        if line.starts_with(b"#") {
            print_end(rt, before, tally);
            before = tally;
            bench = Bench::new();
        }
        let line = line.strip_suffix(b"\n").unwrap_or(line);
        run_line(rt, &mut bench, &mut tally, line);
    }
    print_end(rt, before, tally);
    tally
}
