#![tactic(auto)]

// The two halves of a product of 64-bit values, from products of halves and digits that fit 64 bits: the part has no
// wide multiply. LLVM sees the low half as one multiply. The four products of halves it would join into the wide one,
// so in the high half that of the low halves is made of two, by digits of 16 bits.
ghost use Rattle.std.specs.Prelude.{◌≡◌, ◌*◌, ◌/◌, ◌^◌, ◌<◌, ◌≤◌};
ghost use Rattle.products.specs.Product.{low_half, high_half};
ghost use Rattle.products.specs.Sign.{sign_bit};

use scalar::signedness::Signedness;

// The product of a half by a half or a digit, with the bound by which sums of such products fit.
fn partial(half: u64, factor: u64) -> u64
    requires { (half < 2 ^ 32) × (factor < 2 ^ 32) }
    ensures { (result ≡ half * factor) × (result ≤ 0xffff_ffff * factor) }
{
    half * factor
}

#[tactic(auto, unfolding(crate::specs::Product::low_half))]
pub fn low_half(a: u64, b: u64) -> u64
    ensures { result ≡ low_half a b }
{
    let low_a = a % 0x1_0000_0000;
    let high_a = a / 0x1_0000_0000;
    let low_b = b % 0x1_0000_0000;
    let high_b = b / 0x1_0000_0000;
    let cross = partial(high_a, low_b).wrapping_add(partial(low_a, high_b));
    partial(low_a, low_b).wrapping_add(cross << 32)
}

// The high half of the product of unsigned factors. Of the product of the low halves only the high word counts; it goes
// by the digits of one of them.
fn unsigned_high_half(a: u64, b: u64) -> u64
    ensures { result ≡ a * b / 2 ^ 64 }
{
    let low_a = a % 0x1_0000_0000;
    let high_a = a / 0x1_0000_0000;
    let low_b = b % 0x1_0000_0000;
    let high_b = b / 0x1_0000_0000;
    let digits = partial(low_b, low_a % 0x1_0000) / 0x1_0000 + partial(low_b, low_a / 0x1_0000);
    let first = partial(high_a, low_b) + digits / 0x1_0000;
    let second = partial(low_a, high_b) + first % 0x1_0000_0000;
    partial(high_a, high_b) + first / 0x1_0000_0000 + second / 0x1_0000_0000
}

// What the high half of the unsigned product has too much of where the factor a is negative.
#[tactic(auto, unfolding(crate::specs::Sign::sign_bit))]
fn correction(signedness: Signedness, a: u64, b: u64) -> u64
    ensures { result ≡ sign_bit signedness a * b }
{
    match signedness {
        Signedness::Signed => {
            if 0x8000_0000_0000_0000 <= a {
                return b;
            }
            0
        }
        Signedness::Unsigned => 0,
    }
}

pub fn high_half(s: Signedness, t: Signedness, a: u64, b: u64) -> u64
    ensures { result ≡ high_half s t a b }
{
    let high = unsigned_high_half(a, b);
    let less = high.wrapping_sub(correction(s, a, b));
    less.wrapping_sub(correction(t, b, a))
}
