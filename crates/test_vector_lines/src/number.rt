ghost use Rattle.std.specs.Prelude.{◌≡◌, ◌≤◌};
ghost use Rattle.test_vector_lines.specs.Number.{number_in};

use crate::hex::digit_of;

// No digit follows a number of more than 60 bits, so that all fit, whatever the base.
const LIMIT: u64 = 1 << 60;

// The number that digits make in a base.
pub fn number_in(base: u64, digits: &[u8]) -> Option<u64>
    requires { base ≤ 16 }
    ensures { result ≡ number_in base digits.now }
{
    let mut number: u64 = 0;
    for &byte in digits {
        let digit = digit_of(byte)?;
        let follows = (digit < base) & (number < LIMIT);
        if !follows {
            return None;
        }
        number = number * base + digit;
    }
    Some(number)
}
