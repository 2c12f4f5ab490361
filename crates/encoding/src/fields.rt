// The fields of a word, by the manual's names. Each is one expression: a function of the place and the width of a field
// would take both from each of these.
ghost use Rattle.std.specs.Prelude.{◌≡◌, ◌<◌, ◌^◌};
ghost use Rattle.encoding.specs.Fields as field;

pub fn rd(word: u32) -> u8
    ensures { result ≡ field.rd word }
{
    (word / 0x80 % 32) as u8
}

pub fn rs1(word: u32) -> u8
    ensures { result ≡ field.rs1 word }
{
    (word / 0x8000 % 32) as u8
}

pub fn rs2(word: u32) -> u8
    ensures { result ≡ field.rs2 word }
{
    (word / 0x10_0000 % 32) as u8
}

// The second register of a word of 16 bits.
pub fn compressed_rs2(word: u32) -> u8
    ensures { result ≡ field.compressed_rs2 word }
{
    (word / 4 % 32) as u8
}

// 12 bits, the highest of them the sign, as 64.
fn sign_extend(n: u32) -> u64
    requires { n < 2 ^ 12 }
    ensures { result ≡ field.sign_extended n }
{
    if n < 0x800 {
        n as u64
    } else {
        n as u64 + 0xffff_ffff_ffff_f000
    }
}

// The immediate of a load or an operation.
pub fn immediate(word: u32) -> u64
    ensures { result ≡ field.immediate word }
{
    sign_extend(word / 0x10_0000 % 0x1000)
}

// The immediate of a store, which lies in two parts.
pub fn store_immediate(word: u32) -> u64
    ensures { result ≡ field.store_immediate word }
{
    sign_extend(word / 0x200_0000 % 128 * 32 + word / 0x80 % 32)
}

pub fn shift_amount(word: u32) -> u64
    ensures { result ≡ field.shift_amount word }
{
    (word / 0x10_0000 % 64) as u64
}

pub fn word_shift_amount(word: u32) -> u64
    ensures { result ≡ field.word_shift_amount word }
{
    (word / 0x10_0000 % 32) as u64
}
