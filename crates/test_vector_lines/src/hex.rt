ghost use Rattle.std.specs.Prelude.{◌≡◌, ◌^◌, ◌≤◌, length};
ghost use Rattle.test_vector_lines.specs.Hex.{digit_of, hex_number, Below};

use crate::number::number_in;

// The value of a hex digit in lower case.
#[tactic(auto, unfolding(crate::specs::Hex::digit_of))]
pub fn digit_of(byte: u8) -> Option<u64>
    ensures value { result ≡ digit_of byte }
    ensures below { Below 16 result }
{
    match byte {
        b'0'..=b'9' => Some((byte - b'0') as u64),
        b'a'..=b'f' => Some((byte - b'a' + 10) as u64),
        _ => None,
    }
}

// The number that at most 16 digits spell, so that it fits.
pub(crate) fn hex_number(digits: &[u8]) -> Option<u64>
    requires { length digits.now ≤ 16 }
    ensures value { result ≡ hex_number digits.now }
    ensures below { Below (16 ^ length digits.now) result }
{
    number_in(16, digits)
}
