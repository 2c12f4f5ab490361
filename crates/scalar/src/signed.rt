ghost use Rattle.std.specs.Prelude.{◌≡◌, ◌%◌};
ghost use Rattle.std.specs.Int.{w32, w64};
ghost use Rattle.scalar.specs.Signed.{signed_less, low_word, arithmetic_shift, sign_extended};
ghost use Rattle.scalar.specs.declared.width.Width.TheVariants.{Word};

use crate::width::Width;

// Whether a is below b, both read as signed.
#[tactic(auto, unfolding(crate::specs::Signed::signed_less))]
pub fn signed_less(a: u64, b: u64) -> bool
    ensures { result ≡ signed_less a b }
{
    a.cast_signed() < b.cast_signed()
}

// a shifted right by the low 6 bits of b, copying the sign bit.
#[tactic(auto, unfolding(crate::specs::Signed::arithmetic_shift))]
pub fn arithmetic_shift(a: u64, b: u64) -> u64
    ensures { result ≡ arithmetic_shift w64 a (b % 64) }
{
    (a.cast_signed() >> b % 64).cast_unsigned()
}

// The low word of a shifted right by the low 5 bits of b, copying its sign bit, and sign-extended.
#[tactic(auto, unfolding(crate::specs::Signed::arithmetic_shift))]
pub fn arithmetic_shift_word(a: u64, b: u64) -> u64
    ensures { result ≡ sign_extended Word (arithmetic_shift w32 (low_word a) (b % 32)) }
{
    let word = ((a % 0x1_0000_0000) as u32).cast_signed() >> b % 32;
    sign_extend(Width::Word, u64::from(word.cast_unsigned()))
}

// The low bits of `value`, one access wide, read as a signed number and given 64 bits.
#[tactic(auto, unfolding(crate::specs::Signed::sign_extended))]
pub fn sign_extend(width: Width, value: u64) -> u64
    ensures { result ≡ sign_extended width value }
{
    match width {
        Width::Byte => i64::from(((value % 0x100) as u8).cast_signed()).cast_unsigned(),
        Width::Half => i64::from(((value % 0x1_0000) as u16).cast_signed()).cast_unsigned(),
        Width::Word => i64::from(((value % 0x1_0000_0000) as u32).cast_signed()).cast_unsigned(),
        Width::Double => value,
    }
}
