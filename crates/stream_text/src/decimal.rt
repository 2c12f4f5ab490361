ghost use Rattle.std.specs.Prelude.{◌+◌, ◌≤◌, length};
ghost use Rattle.stream_text.specs.Decimal.{decimal};
ghost use Rattle.stream_text.specs.Put.{Put};

// Writes the digits of a number from a place on, and gives the place after
// them. Not by `write!`: its contract says what is written where it succeeds,
// and never that it does; and std's `decimal` ends at 64 digits, where that of
// specs/ has no end.
#[tactic(auto, using(crate::proofs::Digits::digit_laws, crate::proofs::Puts::put_laws))]
pub(crate) fn put_decimal(out: &mut [u8], at: usize, n: u64) -> usize
    requires { at + length (decimal n) ≤ length out.old }
    ensures { Put out.old at (decimal n) out.new result }
{
    if n < 10 {
        out[at] = 48 + n as u8;
        return at + 1;
    }
    let last = put_decimal(out, at, n / 10);
    out[last] = 48 + (n % 10) as u8;
    last + 1
}
