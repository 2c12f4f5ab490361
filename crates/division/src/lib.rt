#![tactic(auto)]

// Division of 64-bit values and of words, signed and unsigned.
ghost use Rattle.std.specs.Prelude.{◌≡◌, ◌<◌, int_div, int_rem};
ghost use Rattle.std.specs.Int.{w32, w64};
ghost use Rattle.std.proofs.Common.{to_z, of_z};
ghost use Rattle.scalar.specs.Signed.{interpreted, low_word};
ghost use Rattle.division.specs.Division.{divided, words_divided};

use scalar::signed;
use scalar::signedness::Signedness;
use scalar::width::Width;

#[derive(Clone, Copy)]
pub struct Division {
    pub quotient: u64,
    pub remainder: u64,
}

// The one quotient that leaves the range of i64, of the least number by -1, wraps to its dividend.
fn signed_divide(a: u64, b: u64) -> Division
    requires { 0 < b }
    ensures { (result.quotient ≡ of_z w64 (int_div (to_z w64 a) (to_z w64 b)))
        × (result.remainder ≡ of_z w64 (int_rem (to_z w64 a) (to_z w64 b))) }
{
    let dividend = a.cast_signed();
    let divisor = b.cast_signed();
    Division {
        quotient: dividend.wrapping_div(divisor).cast_unsigned(),
        remainder: dividend.wrapping_rem(divisor).cast_unsigned(),
    }
}

#[tactic(auto, unfolding(crate::specs::Division::quotient, crate::specs::Division::remainder))]
pub fn divide(signedness: Signedness, a: u64, b: u64) -> Division
    ensures { result ≡ divided signedness w64 a b }
{
    if b == 0 {
        return Division {
            quotient: 0xffff_ffff_ffff_ffff,
            remainder: a,
        };
    }
    match signedness {
        Signedness::Signed => signed_divide(a, b),
        Signedness::Unsigned => Division {
            quotient: a / b,
            remainder: a % b,
        },
    }
}

// The low word of a register as a number of 64 bits.
fn widened(signedness: Signedness, a: u64) -> u64
    ensures { interpreted signedness w64 result ≡ interpreted signedness w32 (low_word a) }
{
    match signedness {
        Signedness::Signed => signed::sign_extend(Width::Word, a),
        Signedness::Unsigned => a % 0x1_0000_0000,
    }
}

// The low words divided, and the low words of the results sign-extended.
pub fn divide_words(signedness: Signedness, a: u64, b: u64) -> Division
    ensures { result ≡ words_divided signedness a b }
{
    let result = divide(signedness, widened(signedness, a), widened(signedness, b));
    Division {
        quotient: signed::sign_extend(Width::Word, result.quotient),
        remainder: signed::sign_extend(Width::Word, result.remainder),
    }
}
