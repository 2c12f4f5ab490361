#![tactic(auto)]

// What each operator of RV64I and RV64M computes.
ghost use Rattle.std.specs.Prelude.{◌≡◌};
ghost use Rattle.compute.specs.Compute.{computed};

use division::{divide, divide_words};
use products::{high_half, low_half};
use scalar::operator::Operator;
use scalar::signed;
use scalar::signedness::Signedness;
use scalar::width::Width;

// The result that `operator` writes for the operands a and b. Each arm takes the low words that it needs: taken before
// the match they would cost every element.
#[tactic(auto, unfolding(crate::specs::Compute::computed))]
pub fn compute(operator: Operator, a: u64, b: u64) -> u64
    ensures { result ≡ computed operator a b }
{
    match operator {
        Operator::Add => a.wrapping_add(b),
        Operator::Sub => a.wrapping_sub(b),
        Operator::Sll => a << b % 64,
        Operator::Slt => signed::signed_less(a, b) as u64,
        Operator::Sltu => (a < b) as u64,
        Operator::Xor => a ^ b,
        Operator::Srl => a >> b % 64,
        Operator::Sra => signed::arithmetic_shift(a, b),
        Operator::Or => a | b,
        Operator::And => a & b,
        Operator::Addw => signed::sign_extend(Width::Word, a % 0x1_0000_0000 + b % 0x1_0000_0000),
        Operator::Subw => signed::sign_extend(
            Width::Word,
            a % 0x1_0000_0000 + (0x1_0000_0000 - b % 0x1_0000_0000),
        ),
        Operator::Sllw => signed::sign_extend(Width::Word, a % 0x1_0000_0000 << b % 32),
        Operator::Srlw => signed::sign_extend(Width::Word, a % 0x1_0000_0000 >> b % 32),
        Operator::Sraw => signed::arithmetic_shift_word(a, b),
        Operator::Mul => low_half(a, b),
        Operator::Mulh => high_half(Signedness::Signed, Signedness::Signed, a, b),
        Operator::Mulhsu => high_half(Signedness::Signed, Signedness::Unsigned, a, b),
        Operator::Mulhu => high_half(Signedness::Unsigned, Signedness::Unsigned, a, b),
        Operator::Div => divide(Signedness::Signed, a, b).quotient,
        Operator::Divu => divide(Signedness::Unsigned, a, b).quotient,
        Operator::Rem => divide(Signedness::Signed, a, b).remainder,
        Operator::Remu => divide(Signedness::Unsigned, a, b).remainder,
        Operator::Mulw => signed::sign_extend(Width::Word, a % 0x1_0000_0000 * (b % 0x1_0000_0000)),
        Operator::Divw => divide_words(Signedness::Signed, a, b).quotient,
        Operator::Divuw => divide_words(Signedness::Unsigned, a, b).quotient,
        Operator::Remw => divide_words(Signedness::Signed, a, b).remainder,
        Operator::Remuw => divide_words(Signedness::Unsigned, a, b).remainder,
    }
}
