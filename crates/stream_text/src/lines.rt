ghost use Rattle.std.specs.Prelude.{◌+◌, ◌≤◌, ◌<◌, ◌++◌, length};
ghost use Rattle.stream_text.specs.Decimal.{decimal};
ghost use Rattle.stream_text.specs.Lines.{space, newline, number_then, run_line, refused_line, bad_record_line};
ghost use Rattle.stream_text.specs.Lines.{register_line, nonzero_line, lines_below};
ghost use Rattle.stream_text.specs.Put.{Put};

use crate::decimal::put_decimal;

// `out` and `at` stay two parameters: a struct that holds the `&mut` is no plainer, since each of its methods would
// have to ensure besides that it holds the same reference, where `Put` says all in one.

// A number, and a byte after it.
fn put_number(out: &mut [u8], at: usize, n: u64, after: u8) -> usize
    requires { at + length (decimal n) + 1 ≤ length out.old }
    ensures { Put out.old at (number_then n after) out.new result }
{
    let end = put_decimal(out, at, n);
    out[end] = after;
    end + 1
}

fn put_bytes(out: &mut [u8], at: usize, bytes: &[u8]) -> usize
    requires { at + length bytes.now ≤ length out.old }
    ensures { Put out.old at bytes.now out.new result }
{
    let end = at + bytes.len();
    out[at..end].copy_from_slice(bytes);
    end
}

// Two numbers with a space between, and a byte after them.
fn put_pair(out: &mut [u8], at: usize, first: u64, second: u64, after: u8) -> usize
    requires { at + length (decimal first) + length (decimal second) + 2 ≤ length out.old }
    ensures { Put out.old at (number_then first space ++ number_then second after) out.new result }
{
    let next = put_number(out, at, first, b' ');
    put_number(out, next, second, after)
}

// The answer of a run, the program counter and the two offsets.
pub fn put_run(
    out: &mut [u8],
    at: usize,
    answer: u32,
    pc: u64,
    source: u32,
    destination: u32,
) -> usize
    requires { at + 54 ≤ length out.old }
    ensures { Put out.old at (run_line answer pc source destination) out.new result × (result ≤ at + 54) }
{
    let offsets = put_pair(out, at, answer as u64, pc, b' ');
    put_pair(out, offsets, source as u64, destination as u64, b'\n')
}

// Some words, and a number after them that ends the line.
fn put_labelled(out: &mut [u8], at: usize, label: &[u8], n: u64) -> usize
    requires { at + length label.now + length (decimal n) + 1 ≤ length out.old }
    ensures { Put out.old at (label.now ++ number_then n newline) out.new result }
{
    let number = put_bytes(out, at, label);
    put_number(out, number, n, b'\n')
}

// A setting that was refused. This and `put_bad_record` are one function already, `put_labelled`, under the names and
// rooms that are promised.
pub fn put_refused(out: &mut [u8], at: usize, answer: u32) -> usize
    requires { at + 19 ≤ length out.old }
    ensures { Put out.old at (refused_line answer) out.new result × (result ≤ at + 19) }
{
    put_labelled(out, at, b"refused ", answer as u64)
}

// A record that is cut or of an unknown kind.
pub fn put_bad_record(out: &mut [u8], at: usize, offset: u64) -> usize
    requires { at + 35 ≤ length out.old }
    ensures { Put out.old at (bad_record_line offset) out.new result × (result ≤ at + 35) }
{
    put_labelled(out, at, b"bad record at ", offset)
}

// A register and its value.
pub fn put_register(out: &mut [u8], at: usize, index: usize, value: u64) -> usize
    requires { (index < 1000) × (at + 26 ≤ length out.old) }
    ensures { Put out.old at (register_line index value) out.new result × (result ≤ at + 26) }
{
    let number = put_bytes(out, at, b"x");
    put_pair(out, number, index as u64, value, b'\n')
}

// A register that is 0 has no line.
#[tactic(auto, unfolding(crate::specs::Lines::nonzero_line))]
fn put_nonzero(out: &mut [u8], at: usize, index: usize, value: u64) -> usize
    requires { (index < 1000) × (at + 26 ≤ length out.old) }
    ensures { Put out.old at (nonzero_line index value) out.new result × (result ≤ at + 26) }
{
    if value == 0 {
        return at;
    }
    put_register(out, at, index, value)
}

// Every register that is not 0, rising.
#[tactic(auto, unfolding(crate::specs::Lines::lines_below))]
pub fn put_registers(out: &mut [u8], at: usize, registers: &[u64; 128]) -> usize
    requires { at + 3328 ≤ length out.old }
    ensures { Put out.old at (lines_below registers.now 128) out.new result × (result ≤ at + 3328) }
{
    let mut next = at;
    for (i, &value) in registers.iter().enumerate() {
        next = put_nonzero(out, next, i, value);
    }
    next
}
